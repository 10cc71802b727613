//! Values of any kind: equal encodings, what isn't written, and how deep they may nest.
use crate::nests::{chain, nested};
use amqp_codec::Error;
use amqp_containers::Array;
use amqp_read_write::{canonical_text, from_slice};
use amqp_test_helpers::{are_equal, refusal};
use amqp_values::{Value, ValueMap};
use amqp_wire::format_code;
use std::alloc::Global;
use std::test::Fail;

fn value(text: &[u8], alloc: Global) -> Result<Value, Error> {
    from_slice(text, alloc)
}

#[test]
fn spellings_of_one_value_are_equal(rt: HostRuntime) -> Result<(), Fail> {
    let alloc = rt.alloc();
    let short = &[0xc0, 2, 1, 0x43];
    let wide = &[0xc0, 3, 1, 0x52, 0];
    let other = &[0xc0, 2, 1, 0x44];
    assert!(rt; are_equal(value(short, alloc), value(wide, alloc))?);
    assert!(rt; !are_equal(value(short, alloc), value(other, alloc))?);
    Ok(())
}

fn mixed_array(alloc: Global) -> Result<Value, Error> {
    let items = vec![in alloc; Value::Uint(1), Value::Bool(true)]?;
    Ok(Value::Array(Array::from(items)))
}

fn map_with_a_key_twice(alloc: Global) -> Result<Value, Error> {
    let first = (Value::Uint(0), Value::Null);
    let second = (Value::Uint(0), Value::Bool(true));
    Ok(Value::Map(ValueMap(vec![in alloc; first, second]?)))
}

#[test]
fn what_isnt_written(rt: HostRuntime) -> Result<(), Fail> {
    let alloc = rt.alloc();
    assert_eq!(rt;
        refusal(mixed_array(alloc)?, alloc),
        Some(Error::MixedArray)
    );
    assert_eq!(rt;
        refusal(map_with_a_key_twice(alloc)?, alloc),
        Some(Error::DuplicateKey)
    );
    Ok(())
}

// So many lists, one in another, around an empty one.
fn lists(levels: usize, alloc: Global) -> Result<Value, Error> {
    let mut value = Value::List(Vec::new(alloc));
    for _ in 0..levels {
        value = Value::List(vec![in alloc; value]?);
    }
    Ok(value)
}

#[test]
fn what_nests_too_deep_isnt_written(rt: HostRuntime) -> Result<(), Fail> {
    let alloc = rt.alloc();
    assert_eq!(rt; refusal(lists(127, alloc)?, alloc), None);
    assert_eq!(rt; refusal(lists(128, alloc)?, alloc), Some(Error::Depth));
    Ok(())
}

// Why such bytes are no value, or that they are.
fn fault(text: &[u8], alloc: Global) -> Option<Error> {
    canonical_text::<Value>(text, alloc).err()
}

fn fault_of_nest(levels: u8, alloc: Global) -> Result<Option<Error>, Fail> {
    let text = nested(levels, alloc)?;
    Ok(fault(text.as_slice(), alloc))
}

fn fault_of_chain(descriptors: usize, code: u8, alloc: Global) -> Result<Option<Error>, Fail> {
    let text = chain(descriptors, code, alloc)?;
    Ok(fault(text.as_slice(), alloc))
}

// Whether the text of so many descriptors is what it is read from.
fn is_chain_canonical(descriptors: usize, code: u8, alloc: Global) -> Result<bool, Fail> {
    let described = chain(descriptors, code, alloc)?;
    let (text, _) = canonical_text::<Value>(described.as_slice(), alloc)?;
    Ok(text.as_slice() == described.as_slice())
}

#[test]
fn as_deep_as_values_may_nest(rt: HostRuntime) -> Result<(), Fail> {
    let alloc = rt.alloc();
    assert_eq!(rt; fault_of_nest(127, alloc)?, None);
    assert_eq!(rt; fault_of_nest(128, alloc)?, None);
    assert_eq!(rt; fault_of_nest(129, alloc)?, Some(Error::Depth));
    assert!(rt; is_chain_canonical(128, 0x40, alloc)?);
    assert_eq!(rt; fault_of_chain(129, 0x40, alloc)?, Some(Error::Depth));
    assert_eq!(rt; fault_of_chain(128, 0x45, alloc)?, Some(Error::Depth));
    Ok(())
}

// A map that holds so many levels of lists.
fn keyed(levels: u8, alloc: Global) -> Result<Vec<u8>, Fail> {
    let held = nested(levels, alloc)?;
    let mut text: Vec<u8> = Vec::new(alloc);
    text.push(format_code::MAP_32)?;
    text.extend_from_slice(&(5 + 9 * u32::from(levels) + 1).to_be_bytes())?;
    text.extend_from_slice(&2u32.to_be_bytes())?;
    text.push(format_code::UINT_0)?;
    text.extend_from_slice(held.as_slice())?;
    Ok(text)
}

// Whether the text of a map that holds so many levels of lists is what it is read from.
fn is_map_written_again(levels: u8, alloc: Global) -> Result<bool, Fail> {
    let deep = keyed(levels, alloc)?;
    let (text, _) = canonical_text::<ValueMap>(deep.as_slice(), alloc)?;
    let (again, _) = canonical_text::<ValueMap>(text.as_slice(), alloc)?;
    Ok(again.as_slice() == text.as_slice())
}

fn fault_of_map(levels: u8, alloc: Global) -> Result<Option<Error>, Fail> {
    let text = keyed(levels, alloc)?;
    Ok(canonical_text::<ValueMap>(text.as_slice(), alloc).err())
}

#[test]
fn as_deep_as_values_of_a_map_may_nest(rt: HostRuntime) -> Result<(), Fail> {
    let alloc = rt.alloc();
    assert!(rt; is_map_written_again(127, alloc)?);
    assert_eq!(rt; fault_of_map(128, alloc)?, Some(Error::Depth));
    Ok(())
}

#[test]
fn a_hostile_nest_is_refused_at_once(rt: HostRuntime) -> Result<(), Fail> {
    assert_eq!(rt;
        fault_of_chain(100_000, 0x40, rt.alloc())?,
        Some(Error::Depth)
    );
    Ok(())
}
