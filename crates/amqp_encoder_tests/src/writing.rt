//! Rows of canonical text and refusals, written by the calls of an encoder.
use crate::steps::{Step, append, measure, take_step};
use amqp_encoder::{
    Encoder, Measure, Pass, buffer_of, filling_encoder, measured_len, measuring_encoder,
};
use amqp_wire::Error;
use std::alloc::Global;
use std::test::Fail;

fn digits(steps: &[Step<'_>], alloc: Global) -> Result<String, Fail> {
    let mut text = Vec::new(alloc);
    append(steps, &mut text, alloc)?;
    Ok(hex::encode(alloc, text)?)
}

/// Steps, and the digits of what they write.
type Rows<'a> = &'a [(&'a [Step<'a>], &'a str)];

/// Checks that each row is written so.
fn check(rows: Rows<'_>, alloc: Global) -> Result<(), Fail> {
    for (steps, wanted) in rows {
        let written = digits(steps, alloc)?;
        if written.as_str() != *wanted {
            return Err(Fail::new(format_args!("{written} is written for {wanted}")));
        }
    }
    Ok(())
}

/// Steps, and why they are refused.
type Refusals<'a> = &'a [(&'a [Step<'a>], Error)];

/// Returns whether the steps are refused so, and leave a buffer unchanged.
fn is_refused_whole(steps: &[Step<'_>], error: Error, alloc: Global) -> Result<bool, Fail> {
    let mut buffer = [0xaa, 0xbb].to_vec(alloc)?;
    let outcome = append(steps, &mut buffer, alloc);
    Ok(
        outcome == Err(error)
            && measure(steps, &mut measuring_encoder(alloc), alloc).err() == Some(error)
            && buffer.as_slice() == [0xaa, 0xbb].as_slice(),
    )
}

/// Checks that each row is refused so.
fn check_refusals(rows: Refusals<'_>, alloc: Global) -> Result<(), Fail> {
    for (steps, error) in rows {
        if !is_refused_whole(steps, *error, alloc)? {
            return Err(Fail::new(format_args!("{error:?} is not what is answered")));
        }
    }
    Ok(())
}

/// Returns so many of a step, these steps, and so many of another.
fn nested<'a>(
    count: u32,
    begin: Step<'a>,
    inner: &[Step<'a>],
    end: Step<'a>,
    alloc: Global,
) -> Result<Vec<Step<'a>>, Error> {
    let count = count as usize;
    let mut steps = Vec::new(alloc);
    steps.resize(count, begin)?;
    steps.extend_from_slice(inner)?;
    let len = steps.len().saturating_add(count);
    steps.resize(len, end)?;
    Ok(steps)
}

#[test]
fn numbers(rt: HostRuntime) -> Result<(), Fail> {
    check(
        &[
            (&[Step::Uint(0)], "43"),
            (&[Step::Uint(255)], "52ff"),
            (&[Step::Uint(256)], "7000000100"),
            (&[Step::Int(-128)], "5480"),
            (&[Step::Int(128)], "7100000080"),
            (&[Step::Long(-1)], "55ff"),
            (&[Step::Char('é')], "73000000e9"),
        ],
        rt.alloc(),
    )
}

#[test]
fn containers(rt: HostRuntime) -> Result<(), Fail> {
    check(
        &[
            (
                &[Step::BeginList, Step::Uint(0), Step::Uint(7), Step::EndList],
                "c00402435207",
            ),
            (
                &[Step::BeginMap, Step::Text("a"), Step::Uint(1), Step::EndMap],
                "c10602a101615201",
            ),
            (&[Step::BeginList, Step::EndList], "45"),
            (&[Step::BeginMap, Step::EndMap], "c10100"),
            (&[Step::BeginArray, Step::EndArray], "e0020040"),
            (
                &[
                    Step::BeginArray,
                    Step::Uint(1),
                    Step::Uint(2),
                    Step::EndArray,
                ],
                "e00a02700000000100000002",
            ),
            (
                &[
                    Step::BeginArray,
                    Step::BeginList,
                    Step::EndList,
                    Step::EndArray,
                ],
                "e00a01d00000000400000000",
            ),
            (
                &[
                    Step::BeginArray,
                    Step::BeginMap,
                    Step::EndMap,
                    Step::EndArray,
                ],
                "e00a01d10000000400000000",
            ),
            (
                &[
                    Step::BeginArray,
                    Step::BeginArray,
                    Step::EndArray,
                    Step::EndArray,
                ],
                "e00b01f0000000050000000040",
            ),
        ],
        rt.alloc(),
    )
}

#[test]
fn described_items_share_their_constructor(rt: HostRuntime) -> Result<(), Fail> {
    check(
        &[
            (
                &[
                    Step::BeginArray,
                    Step::BeginDescribed(0x24),
                    Step::BeginList,
                    Step::EndList,
                    Step::EndDescribed,
                    Step::EndArray,
                ],
                "e00d01005324d00000000400000000",
            ),
            (
                &[
                    Step::BeginArray,
                    Step::BeginDescribed(0x23),
                    Step::BeginList,
                    Step::Ulong(9),
                    Step::Ulong(13),
                    Step::EndList,
                    Step::EndDescribed,
                    Step::BeginDescribed(0x23),
                    Step::BeginList,
                    Step::Ulong(1),
                    Step::EndList,
                    Step::EndDescribed,
                    Step::EndArray,
                ],
                "e01b02005323d000000008000000025309530d00000006000000015301",
            ),
        ],
        rt.alloc(),
    )
}

#[test]
fn every_primitive_kind(rt: HostRuntime) -> Result<(), Fail> {
    let items = concat!(
        "40414250ff6012344453ff80000000000000010051fe61fffe547f81ffffffffffffff7f740102030484010203040506",
        "0708940909090909090909090909090909090983ffffffffffffffff9807070707070707070707070707070707a102c3a9a3016143"
    );
    let text = format!(in rt.alloc(); "c06614{items}")?;
    check(
        &[(
            &[
                Step::BeginList,
                Step::Null,
                Step::Bool(true),
                Step::Bool(false),
                Step::Ubyte(255),
                Step::Ushort(0x1234),
                Step::Ulong(0),
                Step::Ulong(255),
                Step::Ulong(256),
                Step::Byte(-2),
                Step::Short(-2),
                Step::Int(127),
                Step::Long(-129),
                Step::Dec32([1, 2, 3, 4]),
                Step::Dec64([1, 2, 3, 4, 5, 6, 7, 8]),
                Step::Dec128([9; 16]),
                Step::Timestamp(-1),
                Step::Uuid([7; 16]),
                Step::Text("é"),
                Step::Symbol("a"),
                Step::Term(&[0x43]),
                Step::EndList,
            ],
            text.as_str(),
        )],
        rt.alloc(),
    )
}

/// Steps, the digits at the start of what they write, and how many bytes they write.
type Fronts<'a> = &'a [(&'a [Step<'a>], &'a str, usize)];

/// Checks that what each row writes begins so, and has this length.
fn check_fronts(rows: Fronts<'_>, alloc: Global) -> Result<(), Fail> {
    for (steps, front, whole) in rows {
        let written = digits(steps, alloc)?;
        if !written.as_str().starts_with(*front) || written.len() / 2 != *whole {
            return Err(Fail::new(format_args!("{front} begins something else")));
        }
    }
    Ok(())
}

#[test]
fn long_binaries(rt: HostRuntime) -> Result<(), Fail> {
    check_fronts(
        &[
            (&[Step::Binary(255)], "a0ff61", 257),
            (&[Step::Binary(256)], "b00000010061", 261),
            (
                &[Step::BeginList, Step::Binary(252), Step::EndList],
                "c0ff01a0fc61",
                257,
            ),
            (
                &[Step::BeginList, Step::Binary(253), Step::EndList],
                "d00000010300000001a0fd61",
                264,
            ),
            (
                &[Step::BeginList, Step::Binary(256), Step::EndList],
                "d00000010900000001b00000010061",
                270,
            ),
        ],
        rt.alloc(),
    )
}

#[test]
fn mixed_arrays(rt: HostRuntime) -> Result<(), Fail> {
    check_refusals(
        &[
            (
                &[
                    Step::BeginArray,
                    Step::Uint(1),
                    Step::Bool(true),
                    Step::EndArray,
                ],
                Error::MixedArray,
            ),
            (
                &[
                    Step::BeginArray,
                    Step::BeginDescribed(0x24),
                    Step::BeginList,
                    Step::EndList,
                    Step::EndDescribed,
                    Step::BeginDescribed(0x25),
                    Step::BeginList,
                    Step::EndList,
                    Step::EndDescribed,
                    Step::EndArray,
                ],
                Error::MixedArray,
            ),
            (
                &[
                    Step::BeginArray,
                    Step::BeginDescribed(0x24),
                    Step::BeginList,
                    Step::EndList,
                    Step::EndDescribed,
                    Step::BeginList,
                    Step::EndList,
                    Step::EndArray,
                ],
                Error::MixedArray,
            ),
        ],
        rt.alloc(),
    )
}

#[test]
fn items_that_no_array_holds(rt: HostRuntime) -> Result<(), Fail> {
    check_refusals(
        &[
            (
                &[Step::BeginArray, Step::Null, Step::EndArray],
                Error::ZeroWidthItems,
            ),
            (
                &[
                    Step::BeginArray,
                    Step::BeginNamed("a"),
                    Step::Null,
                    Step::EndDescribed,
                    Step::EndArray,
                ],
                Error::ZeroWidthItems,
            ),
            (
                &[Step::BeginArray, Step::Term(&[0x43]), Step::EndArray],
                Error::LazyInArray,
            ),
        ],
        rt.alloc(),
    )
}

#[test]
fn refused_calls(rt: HostRuntime) -> Result<(), Fail> {
    check_refusals(
        &[
            (&[Step::Symbol("é")], Error::NonAscii),
            (&[Step::BeginNamed("é")], Error::NonAscii),
            (
                &[Step::BeginMap, Step::Uint(1), Step::EndMap],
                Error::OddCount,
            ),
            (&[Step::BeginMap, Step::EndList], Error::InvalidValue),
            (&[Step::EndList], Error::InvalidValue),
            (
                &[Step::BeginDescribed(0x24), Step::Uint(1), Step::Uint(1)],
                Error::InvalidValue,
            ),
            (
                &[Step::BeginDescribed(0x24), Step::EndDescribed],
                Error::InvalidValue,
            ),
            (&[Step::BeginList], Error::InvalidValue),
            (&[Step::Refuse(Error::Custom(7))], Error::Custom(7)),
        ],
        rt.alloc(),
    )
}

/// Returns whether these steps are written in 128 values that begin and end so, and refused in one more.
fn is_bounded<'a>(
    begin: Step<'a>,
    inner: &[Step<'a>],
    end: Step<'a>,
    alloc: Global,
) -> Result<bool, Fail> {
    let deepest = nested(128, begin, inner, end, alloc)?;
    let mut written = Vec::new(alloc);
    append(&deepest, &mut written, alloc)?;
    let deeper = nested(129, begin, inner, end, alloc)?;
    Ok(written.len() > 128 && is_refused_whole(&deeper, Error::Depth, alloc)?)
}

#[test]
fn nesting(rt: HostRuntime) -> Result<(), Fail> {
    let (list, end) = (Step::BeginList, Step::EndList);
    assert!(rt; is_bounded(list, &[], end, rt.alloc())?);
    let array = [Step::BeginArray, Step::Uint(1), Step::EndArray];
    assert!(rt; is_bounded(list, &array, end, rt.alloc())?);
    let (described, end) = (Step::BeginDescribed(0x24), Step::EndDescribed);
    assert!(rt; is_bounded(described, &[Step::Uint(1)], end, rt.alloc())?);
    Ok(())
}

/// Returns whether the encoder returns this error for each step.
fn is_refused<P: Pass>(
    steps: &[Step<'_>],
    error: Error,
    encoder: &mut Encoder<P>,
    alloc: Global,
) -> bool {
    for step in steps {
        if take_step(*step, encoder, alloc) != Err(error) {
            return false;
        }
    }
    encoder.check() == Err(error)
}

#[test]
fn the_same_error_again(rt: HostRuntime) {
    let mut encoder = measuring_encoder(rt.alloc());
    let steps = [Step::EndMap, Step::Refuse(Error::Custom(1)), Step::Null];
    assert!(rt; is_refused(&steps, Error::InvalidValue, &mut encoder, rt.alloc()));
}

/// Returns whether the list that is measured is ended, and how long it is.
fn measured_list(
    count: u32,
    item: &[u8],
    alloc: Global,
) -> Result<(bool, Result<usize, Error>), Error> {
    let mut encoder = measuring_encoder(alloc);
    encoder.begin_list()?;
    for _ in 0..count {
        encoder.write_binary(item)?;
    }
    let is_ended = encoder.end_list().is_ok();
    Ok((is_ended, measured_len(&encoder)))
}

#[test]
fn sizes_past_32_bits(rt: HostRuntime) -> Result<(), Fail> {
    let mut bytes: Vec<u8> = Vec::new(rt.alloc());
    bytes.resize(1_048_576, 0)?;
    let fits = measured_list(4095, &bytes, rt.alloc())?;
    assert!(rt; fits == (true, Ok(4_293_939_204)));
    let past = measured_list(4096, &bytes, rt.alloc())?;
    assert!(rt; past == (false, Err(Error::TooLarge)));
    Ok(())
}

#[test]
fn a_room_that_is_too_small(rt: HostRuntime) -> Result<(), Fail> {
    let buffer = [0xaa, 0xbb].to_vec(rt.alloc())?;
    let limit = buffer.len();
    let mut encoder = measuring_encoder(rt.alloc());
    let mut filling = filling_encoder(&mut encoder, rt.alloc(), buffer, limit);
    assert_eq!(rt; filling.write_uint(1), Err(Error::InvalidValue));
    let buffer = buffer_of(filling);
    assert_eq!(rt; buffer.as_slice(), [0xaa, 0xbb].as_slice());
    Ok(())
}

/// Returns whether the steps are written so after two bytes of a buffer, or refused with `Memory`, which leaves the buffer unchanged.
fn is_written_or_left(
    steps: &[Step<'_>],
    text: &[u8],
    buffer: &mut Vec<u8>,
    alloc: Global,
) -> bool {
    match append(steps, buffer, alloc) {
        Ok(()) => buffer.as_slice() == text,
        Err(error) => error.number() == 21 && buffer.as_slice() == [0xaa, 0xbb].as_slice(),
    }
}

// Each growth is refused in turn by hand: `rt try --test --fail-alloc N`, for N from 1 on.
#[test]
fn want_of_memory_leaves_the_buffer(rt: HostRuntime) {
    let rows: [(&[Step<'_>], &[u8]); 2] = [
        (
            &[Step::BeginList, Step::Binary(3), Step::EndList],
            &[0xaa, 0xbb, 0xc0, 6, 1, 0xa0, 3, 0x61, 0x61, 0x61],
        ),
        (
            &[Step::BeginNamed("a"), Step::Uint(1), Step::EndDescribed],
            &[0xaa, 0xbb, 0, 0xa3, 1, 0x61, 0x52, 1],
        ),
    ];
    for (steps, text) in &rows {
        let Ok(mut buffer) = [0xaa, 0xbb].to_vec(rt.alloc()) else {
            continue;
        };
        assert!(rt; is_written_or_left(steps, text, &mut buffer, rt.alloc()));
    }
}
