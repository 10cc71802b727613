//! Each reading call once, with the values and the errors that it returns.
use crate::steps::{Step, check};
use amqp_decoder::{Decoder, decoder_of};
use amqp_wire::{ByteSource, Descriptor, Error};
use std::alloc::Global;
use std::test::Fail;

// Where the input ends, at the top level, there is no next value.
const ENDED: &[Step] = &[Step::PeekCode(0)];

#[test]
fn unsigned_numbers(rt: HostRuntime) -> Result<(), Fail> {
    let steps = [
        Step::Ubyte(254),
        Step::Ushort(258),
        Step::Uint(7),
        Step::Uint(2_147_483_648),
        Step::Ulong(0),
        Step::Ulong(255),
        Step::Ulong(0x0102_0304_0506_0708),
        Step::AtEnd(true),
    ];
    let digits = "50fe600102520770800000004453ff800102030405060708";
    check(digits, &steps, ENDED, Error::Cut, rt.alloc())
}

#[test]
fn signed_numbers(rt: HostRuntime) -> Result<(), Fail> {
    let steps = [
        Step::Byte(-1),
        Step::Short(-2),
        Step::Int(-128),
        Step::Int(-2_147_483_648),
        Step::Long(-3),
        Step::Long(-4),
        Step::Timestamp(1000),
        Step::AtEnd(true),
    ];
    let digits = "51ff61fffe5480718000000055fd81fffffffffffffffc8300000000000003e8";
    check(digits, &steps, ENDED, Error::Cut, rt.alloc())
}

#[test]
fn booleans_bytes_and_null(rt: HostRuntime) -> Result<(), Fail> {
    let steps = [
        Step::Null,
        Step::Bool(true),
        Step::Bool(false),
        Step::Bool(false),
        Step::Dec32([1, 2, 3, 4]),
        Step::Dec64([1, 2, 3, 4, 5, 6, 7, 8]),
        Step::Dec128([1, 2, 3, 4, 5, 6, 7, 8, 9, 10, 11, 12, 13, 14, 15, 16]),
        Step::Uuid([16, 15, 14, 13, 12, 11, 10, 9, 8, 7, 6, 5, 4, 3, 2, 1]),
        Step::Char('A'),
        Step::AtEnd(true),
    ];
    let digits =
        "40414256007401020304840102030405060708940102030405060708090a0b0c0d0e0f1098100f0e0d0c0b0a0908070605040302017300000041";
    check(digits, &steps, ENDED, Error::Cut, rt.alloc())
}

/// Reads a binary, a string, a symbol, a described null and an array of one described ubyte, each with a text in it.
const HELD: &[u8] = &[
    0xa0, 0x02, 0xff, 0x00, 0xa1, 0x02, 0xc3, 0xa9, 0xb3, 0, 0, 0, 1, 0x61, 0x00, 0xa3, 0x01, 0x62,
    0x40, 0xe0, 0x07, 0x01, 0x00, 0xa3, 0x01, 0x63, 0x50, 0x09, 0xc0, 0x02, 0x01, 0x43,
];

fn read_texts<R: ByteSource>(decoder: &mut Decoder<R>, alloc: Global) -> Result<usize, Error> {
    let binary = decoder.read_binary(alloc)?.len();
    let string = decoder.read_string(alloc)?.as_str().len();
    let symbol = decoder.read_symbol(alloc)?.as_str().len();
    Ok(binary.saturating_add(string).saturating_add(symbol))
}

fn read_described<R: ByteSource>(decoder: &mut Decoder<R>, alloc: Global) -> Result<usize, Error> {
    let Descriptor::Name(name) = decoder.begin_described(alloc)? else {
        return Err(Error::InvalidValue);
    };
    decoder.read_null()?;
    decoder.end_described()?;
    Ok(name.as_str().len())
}

fn read_array<R: ByteSource>(decoder: &mut Decoder<R>, alloc: Global) -> Result<(), Error> {
    decoder.begin_array(alloc)?;
    decoder.begin_described(alloc)?;
    decoder.read_ubyte()?;
    decoder.end_described()?;
    decoder.end_array()
}

// Reads all of it, and returns how many bytes its texts have.
fn read_held(alloc: Global) -> Result<usize, Error> {
    let mut decoder = decoder_of(HELD, alloc);
    let texts = read_texts(&mut decoder, alloc)?;
    let name = read_described(&mut decoder, alloc)?;
    read_array(&mut decoder, alloc)?;
    let term = decoder.read_term(alloc)?.len();
    Ok(texts.saturating_add(name).saturating_add(term))
}

#[test]
fn texts_are_held(rt: HostRuntime) -> Result<(), Fail> {
    assert_eq!(rt; read_held(rt.alloc())?, 10);
    Ok(())
}

// Each growth is refused in turn by hand: `rt try --test --fail-alloc N`, for N from 1 on.
#[test]
fn want_of_memory_is_named(rt: HostRuntime) {
    match read_held(rt.alloc()) {
        Ok(sum) => assert_eq!(rt; sum, 10),
        Err(error) => assert_eq!(rt; error.number(), 21),
    }
}

#[test]
fn begins_and_ends_that_do_not_match(rt: HostRuntime) -> Result<(), Fail> {
    let rows: [(&[Step], Step, Error); 5] = [
        (&[Step::BeginList(2)], Step::EndList, Error::Surplus),
        (&[Step::BeginList(2)], Step::EndMap, Error::InvalidValue),
        (
            &[
                Step::BeginList(2),
                Step::PeekCode(0x40),
                Step::Null,
                Step::Bool(true),
            ],
            Step::PeekCode(0),
            Error::Missing,
        ),
        (&[], Step::EndList, Error::InvalidValue),
        (
            &[Step::BeginList(2)],
            Step::AtEnd(true),
            Error::InvalidValue,
        ),
    ];
    for (steps, refused, error) in rows {
        check("c00302404100532445", steps, &[refused], error, rt.alloc())?;
    }
    Ok(())
}

// Where a container has no value left, every call that reads one answers that it is missing, whatever stands behind it.
#[test]
fn no_value_is_left(rt: HostRuntime) -> Result<(), Fail> {
    for refused in [
        Step::PeekCode(0),
        Step::Null,
        Step::BeginList(0),
        Step::BeginArray(0),
        Step::BeginDescribed(0),
        Step::Term,
    ] {
        // an empty list before the code of a float, both in a list of two
        let steps = [Step::BeginList(2), Step::BeginList(0)];
        check(
            "c00502c0010072",
            &steps,
            &[refused],
            Error::Missing,
            rt.alloc(),
        )?;
    }
    Ok(())
}

// A wrong size is answered where the items of the open container end, and nowhere before.
#[test]
fn wrong_sizes_are_named_at_the_end(rt: HostRuntime) -> Result<(), Fail> {
    let rows: [(&[Step], Step, Error); 3] = [
        (&[Step::BeginList(1)], Step::EndList, Error::Surplus),
        (
            &[Step::BeginList(1), Step::Null],
            Step::EndMap,
            Error::InvalidValue,
        ),
        (
            &[Step::BeginList(1), Step::Null],
            Step::EndList,
            Error::Size,
        ),
    ];
    for (steps, refused, error) in rows {
        check("c003014040", steps, &[refused], error, rt.alloc())?;
    }
    Ok(())
}

#[test]
fn the_same_error_again(rt: HostRuntime) -> Result<(), Fail> {
    let refused = [
        Step::BeginDescribed(0x23),
        Step::Null,
        Step::BeginList(0),
        Step::EndDescribed,
        Step::PeekSection(None),
        Step::Check,
    ];
    check(
        "00532445",
        &[],
        &refused,
        Error::WrongDescriptor,
        rt.alloc(),
    )
}

#[test]
fn other_kinds_are_named_by_their_codes(rt: HostRuntime) -> Result<(), Fail> {
    for (digits, refused, code) in [
        ("40", Step::Bool(true), 0x40),
        ("c10100", Step::BeginList(0), 0xc1),
        ("00532445", Step::Ulong(0), 0),
    ] {
        check(digits, &[], &[refused], Error::WrongType(code), rt.alloc())?;
    }
    Ok(())
}
