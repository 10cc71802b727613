//! Limits of the caller: what is read within them, and what passes one.
use crate::nests::nested;
use amqp_read_write::{from_reader_within, from_slice_within};
use amqp_values::Value;
use amqp_wire::{Error, Limits};
use std::alloc::Global;
use std::test::Fail;

/// A list that holds a list that holds a uint, and a null after them.
const LISTS: &[u8] = &[0xc0, 0x05, 0x01, 0xc0, 0x02, 0x01, 0x43, 0x40];

fn within(nesting: u32, bytes: u64) -> Limits {
    match Limits::new(nesting, bytes, u64::MAX) {
        Some(limits) => limits,
        None => Limits::greatest(),
    }
}

// How many bytes the value takes that the slice begins with.
fn taken(text: &[u8], limits: &Limits, alloc: Global) -> Result<usize, Error> {
    let (_value, len) = from_slice_within::<Value>(text, limits, alloc)?;
    Ok(len)
}

// How many bytes a reader has left behind the value.
fn left(text: &[u8], limits: &Limits, alloc: Global) -> Result<usize, Error> {
    let mut reader = text;
    let _value: Value = from_reader_within(&mut reader, limits, alloc)?;
    Ok(reader.len())
}

#[test]
fn a_value_within_limits(rt: HostRuntime) {
    let alloc = rt.alloc();
    assert_eq!(rt; taken(LISTS, &within(2, 7), alloc), Ok(7));
    assert_eq!(rt; left(LISTS, &within(2, 7), alloc), Ok(1));
    assert_eq!(rt; taken(LISTS, &within(128, u64::MAX), alloc), Ok(7));
    assert_eq!(rt; left(LISTS, &Limits::greatest(), alloc), Ok(1));
}

// How many bytes so many lists take, one in another.
fn nest_taken(levels: u8, limits: &Limits, alloc: Global) -> Result<Result<usize, Error>, Fail> {
    let text = nested(levels, alloc)?;
    Ok(taken(text.as_slice(), limits, alloc))
}

#[test]
fn a_value_that_nests_deeper(rt: HostRuntime) -> Result<(), Fail> {
    let alloc = rt.alloc();
    for nesting in 0..2 {
        let limits = within(nesting, 7);
        assert_eq!(rt; taken(LISTS, &limits, alloc), Err(Error::Limit));
        assert_eq!(rt; left(LISTS, &limits, alloc), Err(Error::Limit));
    }
    let limits = within(127, u64::MAX);
    assert_eq!(rt; nest_taken(128, &limits, alloc)?, Err(Error::Limit));
    let greatest = Limits::greatest();
    assert_eq!(rt; nest_taken(129, &greatest, alloc)?, Err(Error::Depth));
    Ok(())
}

#[test]
fn a_value_of_more_bytes(rt: HostRuntime) {
    let alloc = rt.alloc();
    for bytes in 0..7 {
        let limits = within(128, bytes);
        assert_eq!(rt; taken(LISTS, &limits, alloc), Err(Error::Limit));
        assert_eq!(rt; left(LISTS, &limits, alloc), Err(Error::Limit));
    }
}

#[test]
fn a_value_that_is_cut(rt: HostRuntime) {
    let alloc = rt.alloc();
    let cut = LISTS.get(..6).unwrap_or(&[]);
    assert_eq!(rt; taken(cut, &within(128, 7), alloc), Err(Error::Cut));
    assert_eq!(rt; taken(cut, &within(128, 6), alloc), Err(Error::Limit));
}
