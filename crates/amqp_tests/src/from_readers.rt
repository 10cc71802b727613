//! Values from readers: over a slice, over a reader that gives one byte a call, and over one that fails at its k-th call
//! for every k.
use amqp_decoder_tests::Dripping;
use amqp_test_helpers::{is_made, is_refused};
use fe2o3_amqp_types::codec::{ByteSource, Deserialize, Error, ReadSource, from_reader};
use fe2o3_amqp_types::messaging::{Accepted, DeliveryState, Received};
use fe2o3_amqp_types::performatives::Open;
use fe2o3_amqp_types::primitives::{Array, Binary, LazyValue, OrderedMap, Uint, Value};
use fe2o3_amqp_types::sasl::SaslMechanisms;
use std::alloc::Global;
use std::test::Fail;

// Reads a value of T from the reader, and returns the number of the error, if there is one.
fn error_of<T: Deserialize>(reader: &mut Dripping<'_>, alloc: Global) -> Option<u8> {
    let read: Result<T, Error> = from_reader(reader, alloc);
    match read {
        Ok(_) => None,
        Err(error) => Some(error.number()),
    }
}

// Whether the next value of the reader is this one.
fn is_next<T: Deserialize + PartialEq + Drop>(
    value: T,
    reader: &mut &[u8],
    alloc: Global,
) -> Result<bool, Error> {
    is_made(from_reader(reader, alloc), value)
}

// An accepted state, and a byte behind it.
const ACCEPTED: &[u8] = &[0x00, 0x53, 0x24, 0x45, 0xff];

#[test]
fn the_next_byte_is_left(rt: HostRuntime) -> Result<(), Fail> {
    let mut reader = ACCEPTED;
    assert!(rt; is_next(Accepted {}, &mut reader, rt.alloc())?);
    assert_eq!(rt; reader, [0xff].as_slice());
    Ok(())
}

// Whether a received and an accepted state are all that the reader gives.
fn are_two_states(reader: &mut &[u8], alloc: Global) -> Result<bool, Error> {
    let received = Received {
        section_number: 9,
        section_offset: 13,
    };
    Ok(
        is_next(DeliveryState::from(received), reader, alloc)?
            && is_next(DeliveryState::from(Accepted {}), reader, alloc)?
            && reader.is_empty(),
    )
}

#[test]
fn values_in_a_row(rt: HostRuntime) -> Result<(), Fail> {
    let bytes = hex::decode(rt.alloc(), "005323c005025209530d00532445")?;
    let mut reader = bytes.as_slice();
    assert!(rt; are_two_states(&mut reader, rt.alloc())?);
    Ok(())
}

#[test]
fn any_reader_is_a_source(rt: HostRuntime) -> Result<(), Fail> {
    let mut source = ReadSource::new(ACCEPTED);
    assert!(rt; is_made(from_reader(&mut source, rt.alloc()), Accepted {})?);
    assert_eq!(rt; source.reader, [0xff].as_slice());
    assert!(rt; !source.failed());
    let refused: Result<Accepted, Error> = from_reader(&mut source, rt.alloc());
    assert!(rt; is_refused(refused, Error::UnknownCode(0xff)));
    Ok(())
}

// Over this input each call fails in turn, and after them the byte behind it is left.
fn check_failures<T: Deserialize>(digits: &str, alloc: Global) -> Result<(), Fail> {
    let mut input = hex::decode(alloc, digits)?;
    let calls = input.len();
    input.push(0xff)?;
    for call in 0..calls {
        let mut reader = Dripping::new(input.as_slice(), call);
        if error_of::<T>(&mut reader, alloc) != Some(22) {
            return Err(Fail::new(format_args!("{digits} at {call}")));
        }
    }
    let mut reader = Dripping::new(input.as_slice(), calls);
    if error_of::<T>(&mut reader, alloc).is_some() || reader.bytes != [0xff].as_slice() {
        return Err(Fail::new(format_args!("{digits} is read otherwise")));
    }
    Ok(())
}

#[test]
fn each_call_fails_in_turn(rt: HostRuntime) -> Result<(), Fail> {
    let alloc = rt.alloc();
    check_failures::<DeliveryState>("00532445", alloc)?;
    check_failures::<DeliveryState>("005324c00000", alloc)?;
    check_failures::<DeliveryState>("00a312616d71703a61636365707465643a6c697374c00100", alloc)?;
    check_failures::<DeliveryState>("005323c005025209530d", alloc)
}

#[test]
fn each_call_fails_in_turn_in_any_value(rt: HostRuntime) -> Result<(), Fail> {
    let alloc = rt.alloc();
    check_failures::<bool>("5601", alloc)?;
    check_failures::<Option<Uint>>("40", alloc)?;
    check_failures::<String>("a10161", alloc)?;
    check_failures::<Binary>("b00000000161", alloc)?;
    check_failures::<LazyValue>("c003015207", alloc)?;
    check_failures::<Array<Uint>>("e00402520102", alloc)?;
    check_failures::<OrderedMap<String, Uint>>("c10602a101615201", alloc)?;
    check_failures::<Value>("00a30161c003015207", alloc)?;
    check_failures::<SaslMechanisms>("005340c00401a30158", alloc)?;
    check_failures::<Open>("005310c00701a10474657374", alloc)
}

// Each input is refused by the error of this number.
fn check_refusals(rows: &[(&str, u8)], alloc: Global) -> Result<(), Fail> {
    for (digits, number) in rows {
        let input = hex::decode(alloc, digits)?;
        let mut reader = Dripping::new(input.as_slice(), 100);
        if error_of::<Accepted>(&mut reader, alloc) != Some(*number) {
            return Err(Fail::new(format_args!("{digits} is refused otherwise")));
        }
    }
    Ok(())
}

#[test]
fn faults_have_their_names(rt: HostRuntime) -> Result<(), Fail> {
    check_refusals(
        &[
            ("", Error::Cut.number()),
            ("005324", Error::Cut.number()),
            ("40", Error::WrongType(0x40).number()),
            ("00532545", Error::WrongDescriptor.number()),
            ("005324c0020140", Error::Surplus.number()),
        ],
        rt.alloc(),
    )
}
