//! The sections of a body (Part 3, sections 3.2.6 to 3.2.8). The digits are written out by the standard's tables.
use crate::parts::{is_printed, rewritten};
use amqp_codec::{Deserialize, Error, Serialize};
use amqp_full_composites::parts::binary_of;
use amqp_lazy::LazyValue;
use amqp_primitives::Binary;
use amqp_read_write::{from_slice_counted, to_vec};
use amqp_sections::{AmqpSequence, AmqpValue, Data};
use amqp_test_helpers::{
    are_equal, check_made, check_refused, check_written, is, is_copied, is_less, is_read, read,
};
use amqp_user_types::seconds::Seconds;
use amqp_values::Value;
use std::alloc::Global;
use std::test::Fail;

#[test]
fn data_are_written(rt: HostRuntime) -> Result<(), Fail> {
    let alloc = rt.alloc();
    check_made(Data::copy_of(&[0x61], alloc), "005375a00161", alloc)?;
    check_made(binary_of(&[], alloc).map(Data::from), "005375a000", alloc)?;
    let data = Data::from([1, 2].to_vec(alloc)?);
    check_made(Ok(data), "005375a0020102", alloc)
}

#[test]
fn data_are_read_in_each_spelling(rt: HostRuntime) -> Result<(), Fail> {
    let alloc = rt.alloc();
    rewritten::<Data>("005375a00161", "005375a00161", alloc)?;
    rewritten::<Data>("00800000000000000075b00000000161", "005375a00161", alloc)?;
    // amqp:data:binary
    rewritten::<Data>(
        "00a310616d71703a646174613a62696e617279a000",
        "005375a000",
        alloc,
    )?;
    rewritten::<Data>(
        "00b300000010616d71703a646174613a62696e617279a000",
        "005375a000",
        alloc,
    )
}

#[test]
fn data_are_refused(rt: HostRuntime) -> Result<(), Fail> {
    let alloc = rt.alloc();
    check_refused::<Data>("00537645", Error::WrongDescriptor, alloc)?;
    check_refused::<Data>("00410145", Error::BadDescriptor, alloc)?;
    check_refused::<Data>("00537545", Error::WrongType(0x45), alloc)?;
    check_refused::<Data>("a00161", Error::WrongType(0xa0), alloc)?;
    check_refused::<Data>("005375a0056162", Error::Cut, alloc)?;
    check_refused::<Data>("005375", Error::Cut, alloc)?;
    check_refused::<Data>("00a301ffa000", Error::NonAscii, alloc)
}

fn data_of(len: usize, alloc: Global) -> Result<Data, Error> {
    let mut bytes = Vec::new(alloc);
    bytes.resize(len, 7)?;
    Ok(Data::from(bytes))
}

// Whether the value's text has this length, and all of it is read as the value again.
fn is_read_again<T: Serialize + Deserialize + PartialEq>(
    made: Result<T, Error>,
    len: usize,
    alloc: Global,
) -> Result<bool, Error> {
    let value = made?;
    let text = to_vec(&value, alloc)?;
    let (again, taken): (T, usize) = from_slice_counted(text.as_slice(), alloc)?;
    Ok(again == value && taken == text.len() && text.len() == len)
}

// Data of so many bytes have a size of one byte up to 255 of them, else of four, and are read again.
fn check_length(len: usize, alloc: Global) -> Result<(), Fail> {
    let size = if len < 256 { 1 } else { 4 };
    if !is_read_again(data_of(len, alloc), len.saturating_add(4 + size), alloc)? {
        return Err(Fail::new(format_args!("data of {len} bytes are read otherwise")));
    }
    Ok(())
}

#[test]
fn data_of_each_length(rt: HostRuntime) -> Result<(), Fail> {
    for len in 0..=300 {
        check_length(len, rt.alloc())?;
    }
    check_length(70_000, rt.alloc())
}

#[test]
fn data_of_values(rt: HostRuntime) -> Result<(), Fail> {
    let alloc = rt.alloc();
    let value = binary_of(&[7], alloc).map(Value::Binary);
    let wanted = binary_of(&[7], alloc).map(Data).map(Ok);
    assert!(rt; are_equal(value.map(Data::try_from), wanted)?);
    assert!(rt; is(Data::try_from(Value::Uint(7)), Err(Value::Uint(7))));
    Ok(())
}

fn numbers(alloc: Global) -> Result<AmqpSequence<i32>, Error> {
    Ok(AmqpSequence::new([1i32, 2, 3].to_vec(alloc)?))
}

#[test]
fn sequences_are_written(rt: HostRuntime) -> Result<(), Fail> {
    let alloc = rt.alloc();
    check_made(numbers(alloc), "005376c00703540154025403", alloc)?;
    let empty = AmqpSequence::<i32>::default_in(alloc);
    check_made(Ok(empty), "00537645", alloc)?;
    let texts = AmqpSequence::from(["a"].to_vec(alloc)?);
    check_made(Ok(texts), "005376c00401a10161", alloc)
}

#[test]
fn sequences_are_read(rt: HostRuntime) -> Result<(), Fail> {
    let alloc = rt.alloc();
    assert!(rt; is_read("005376c00703540154025403", numbers(alloc), alloc)?);
    // amqp:amqp-sequence:list
    rewritten::<AmqpSequence<Value>>(
        "00a317616d71703a616d71702d73657175656e63653a6c697374d000000009000000017100000007",
        "005376c003015407",
        alloc,
    )?;
    check_refused::<AmqpSequence<i32>>("005376c0020141", Error::WrongType(0x41), alloc)?;
    check_refused::<AmqpSequence<i32>>("00537745", Error::WrongDescriptor, alloc)
}

#[test]
fn values_are_written(rt: HostRuntime) -> Result<(), Fail> {
    let alloc = rt.alloc();
    check_made(Ok(AmqpValue(true)), "00537741", alloc)?;
    check_made(Ok(AmqpValue(())), "00537740", alloc)?;
    check_made(
        Ok(AmqpValue("test_str")),
        "005377a108746573745f737472",
        alloc,
    )?;
    let numbers = numbers(alloc)?;
    check_written(
        &AmqpValue(&numbers),
        "005377005376c00703540154025403",
        alloc,
    )
}

#[test]
fn a_value_of_a_users_type(rt: HostRuntime) -> Result<(), Fail> {
    let alloc = rt.alloc();
    let section = || Ok(AmqpValue(Seconds { count: 9 }));
    check_made(section(), "005377c003015209", alloc)?;
    assert!(rt; is_read("005377c003015209", section(), alloc)?);
    Ok(())
}

#[test]
fn values_are_read(rt: HostRuntime) -> Result<(), Fail> {
    let alloc = rt.alloc();
    // amqp:amqp-value:*
    rewritten::<AmqpValue<Value>>(
        "00a311616d71703a616d71702d76616c75653a2a5601",
        "00537741",
        alloc,
    )?;
    rewritten::<AmqpValue<Option<bool>>>("00537740", "00537740", alloc)?;
    check_refused::<AmqpValue<bool>>("00537740", Error::WrongType(0x40), alloc)?;
    check_refused::<AmqpValue<bool>>("00537541", Error::WrongDescriptor, alloc)
}

fn has_bytes(section: AmqpValue<LazyValue>, digits: &str, alloc: Global) -> Result<bool, Fail> {
    let bytes = hex::encode(alloc, section.0.as_slice())?;
    Ok(bytes.as_str() == digits)
}

#[test]
fn a_value_keeps_its_bytes(rt: HostRuntime) -> Result<(), Fail> {
    let alloc = rt.alloc();
    let digits = "005377a108746573745f737472";
    assert!(rt; has_bytes(read(digits, alloc)?, "a108746573745f737472", alloc)?);
    let section: AmqpValue<LazyValue> = read(digits, alloc)?;
    check_made(Ok(section), digits, alloc)?;
    // a spelling that isn't the shortest is kept, behind the shortest descriptor
    rewritten::<AmqpValue<LazyValue>>("008000000000000000777000000007", "0053777000000007", alloc)
}

fn sequence_of_numbers(alloc: Global) -> Result<AmqpSequence<i32>, Error> {
    Ok(AmqpSequence([0i32, 1, 2, 3].to_vec(alloc)?))
}

fn zeros(alloc: Global) -> Result<Data, Error> {
    Ok(Data(Binary(Vec::from_slice(alloc, &[0; 12])?)))
}

#[test]
fn printed(rt: HostRuntime) -> Result<(), Fail> {
    let alloc = rt.alloc();
    let sequence = sequence_of_numbers(alloc);
    assert!(rt; is_printed(sequence, "AmqpSequence([0, 1, 2, 3])", alloc)?);
    let empty = AmqpSequence::<i32>::default_in(alloc);
    assert!(rt; is_printed(Ok(empty), "AmqpSequence([])", alloc)?);
    assert!(rt; is_printed(Ok(AmqpValue(-7i64)), "AmqpValue(-7)", alloc)?);
    assert!(rt; is_printed(zeros(alloc), "Data of length: 12", alloc)?);
    Ok(())
}

#[test]
fn copies(rt: HostRuntime) -> Result<(), Fail> {
    let alloc = rt.alloc();
    assert!(rt; is_copied(numbers(alloc))?);
    assert!(rt; is_copied(Ok(AmqpValue(5u32)))?);
    assert!(rt; is_copied(Data::copy_of(&[1], alloc))?);
    assert!(rt; is_less(Ok(AmqpValue(1u32)), Ok(AmqpValue(2u32)))?);
    Ok(())
}
