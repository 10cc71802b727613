//! The order and the hash of values of any kind and of maps of them, and maps whose keys they are.
use amqp_codec::{Deserialize, MapKey};
use amqp_containers::Array;
use amqp_described::Described;
use amqp_maps::OrderedMap;
use amqp_read_write::from_slice;
use amqp_test_helpers::{are_equal, hash_of, is_refused};
use amqp_values::{IntoValue, Value, ValueMap};
use amqp_wire::Error;
use std::alloc::Global;
use std::cmp::Ordering;
use std::hash::Hash;
use std::test::Fail;

/// Texts of values that hold no others, each before the next.
const LEAVES: [&[u8]; 27] = [
    &[0x40],
    &[0x42],
    &[0x41],
    &[0x50, 0xff],
    &[0x60, 0, 0],
    &[0x52, 1],
    &[0x70, 0, 1, 0, 0],
    &[0x44],
    &[0x51, 0xff],
    &[0x51, 0],
    &[0x61, 0xff, 0xff],
    &[0x54, 0xff],
    &[0x55, 0xff],
    &[0x74, 0, 0, 0, 9],
    &[0x74, 1, 0, 0, 0],
    &[0x84, 0, 0, 0, 0, 0, 0, 0, 0],
    &[0x94, 0, 0, 0, 0, 0, 0, 0, 0, 0, 0, 0, 0, 0, 0, 0, 0],
    &[0x73, 0, 0, 0, 0x61],
    &[0x83, 0xff, 0xff, 0xff, 0xff, 0xff, 0xff, 0xff, 0xff],
    &[0x83, 0, 0, 0, 0, 0, 0, 0, 1],
    &[0x98, 0, 0, 0, 0, 0, 0, 0, 0, 0, 0, 0, 0, 0, 0, 0, 0],
    &[0xa0, 0],
    &[0xa0, 1, 1],
    &[0xa0, 2, 1, 0],
    &[0xa0, 1, 2],
    &[0xa1, 1, 0x62],
    &[0xa3, 1, 0x61],
];

/// Texts of values that hold others, each before the next: described values, lists, maps and arrays.
const HOLDERS: [&[u8]; 16] = [
    &[0, 0xa3, 1, 0x62, 0x40],
    &[0, 0x53, 1, 0x52, 9],
    &[0, 0x53, 2, 0x40],
    &[0, 0x53, 2, 0x41],
    &[0x45],
    &[0xc0, 3, 1, 0x52, 1],
    &[0xc0, 4, 2, 0x52, 1, 0x40],
    &[0xc0, 3, 1, 0x52, 2],
    &[0xc1, 1, 0],
    &[0xc1, 3, 2, 0x40, 0x40],
    &[0xc1, 6, 4, 0x40, 0x40, 0x52, 1, 0x40],
    &[0xc1, 4, 2, 0x40, 0x52, 1],
    &[0xc1, 4, 2, 0x52, 1, 0x40],
    &[0xe0, 2, 0, 0x40],
    &[0xe0, 6, 1, 0x70, 0, 0, 0, 1],
    &[0xe0, 10, 2, 0x70, 0, 0, 0, 1, 0, 0, 0, 2],
];

/// Texts of maps, each before the next.
const MAPS: [&[u8]; 5] = [
    &[0xc1, 1, 0],
    &[0xc1, 3, 2, 0x40, 0x40],
    &[0xc1, 6, 4, 0x40, 0x40, 0x52, 1, 0x40],
    &[0xc1, 4, 2, 0x40, 0x52, 1],
    &[0xc1, 4, 2, 0x52, 1, 0x40],
];

// The values of the texts of each group.
fn row_of<T: Deserialize>(groups: &[&[&[u8]]], alloc: Global) -> Result<Vec<T>, Error> {
    let mut row: Vec<T> = Vec::new(alloc);
    for group in groups {
        for text in group.iter() {
            row.push(from_slice(text, alloc)?)?;
        }
    }
    Ok(row)
}

fn ascending(alloc: Global) -> Result<Vec<Value>, Error> {
    row_of(&[&LEAVES, &HOLDERS], alloc)
}

fn ascending_maps(alloc: Global) -> Result<Vec<ValueMap>, Error> {
    row_of(&[&MAPS], alloc)
}

// Whether the two compare so.
fn is_in_order<T: Ord>(first: &T, second: &T, order: Ordering) -> bool {
    first.cmp(second) == order
        && first.partial_cmp(second) == Some(order)
        && (*first == *second) == (order == Ordering::Equal)
}

// Whether the values compare as their places do.
fn is_ascending<T: Ord + Drop>(row: Vec<T>) -> bool {
    for (left, first) in row.iter().enumerate() {
        for (right, second) in row.iter().enumerate() {
            if !is_in_order(first, second, left.cmp(&right)) {
                return false;
            }
        }
    }
    true
}

// Whether a copy of each value has its hash, and no other value has.
fn has_hashes_apart<T: Clone + Hash + Drop>(row: Vec<T>) -> Result<bool, Error> {
    for (left, value) in row.iter().enumerate() {
        let copy = value.clone()?;
        for (right, other) in row.iter().enumerate() {
            if (hash_of(&copy) == hash_of(other)) != (left == right) {
                return Ok(false);
            }
        }
    }
    Ok(true)
}

#[test]
fn each_before_the_next(rt: HostRuntime) -> Result<(), Fail> {
    assert!(rt; is_ascending(ascending(rt.alloc())?));
    Ok(())
}

#[test]
fn equal_values_have_equal_hashes(rt: HostRuntime) -> Result<(), Fail> {
    assert!(rt; has_hashes_apart(ascending(rt.alloc())?)?);
    Ok(())
}

#[test]
fn each_map_before_the_next(rt: HostRuntime) -> Result<(), Fail> {
    let alloc = rt.alloc();
    assert!(rt; is_ascending(ascending_maps(alloc)?));
    assert!(rt; has_hashes_apart(ascending_maps(alloc)?)?);
    Ok(())
}

// What the map has for the key.
fn found<K: MapKey>(map: Result<OrderedMap<K, u32>, Error>, key: K) -> Result<Option<u32>, Error> {
    let map = map?;
    Ok(map.get(&key).copied())
}

#[test]
fn keys_that_are_maps(rt: HostRuntime) -> Result<(), Fail> {
    let alloc = rt.alloc();
    let one: &[u8] = &[0xc1, 6, 2, 0xc1, 1, 0, 0x52, 7];
    assert_eq!(rt;
        found(from_slice(one, alloc), ValueMap::new(alloc))?,
        Some(7)
    );
    let twice: &[u8] = &[
        0xc1, 17, 4, 0xc1, 1, 0, 0x52, 7, 0xd1, 0, 0, 0, 4, 0, 0, 0, 0, 0x52, 8,
    ];
    let refused: Result<OrderedMap<ValueMap, u32>, Error> = from_slice(twice, alloc);
    assert!(rt; is_refused(refused, Error::DuplicateKey));
    Ok(())
}

fn list(alloc: Global) -> Result<Value, Error> {
    Ok(Value::from(vec![in alloc; Value::Uint(1), Value::Null]?))
}

// Whether each call that puts a key into an empty map answers what it replaces.
fn is_filled(map: &mut OrderedMap<Value, u32>, alloc: Global) -> Result<bool, Error> {
    Ok(
        map.insert(list(alloc)?, 1)?.is_none()
            && map.insert(Value::Ulong(1), 2)?.is_none()
            && map.insert(list(alloc)?, 3)? == Some(1),
    )
}

fn has_both_keys(map: &OrderedMap<Value, u32>, list: &Value) -> bool {
    map.get(list) == Some(&3)
        && map.get(&Value::Ulong(1)) == Some(&2)
        && map.get(&Value::Uint(1)).is_none()
}

#[test]
fn keys_of_any_kind(rt: HostRuntime) -> Result<(), Fail> {
    let alloc = rt.alloc();
    let list = list(alloc)?;
    let mut map: OrderedMap<Value, u32> = OrderedMap::new(alloc);
    let well = is_filled(&mut map, alloc)? && has_both_keys(&map, &list);
    assert!(rt; well);
    Ok(())
}

fn one_item(alloc: Global) -> Result<Vec<Value>, Error> {
    Ok(vec![in alloc; Value::Uint(1)]?)
}

fn one_pair(alloc: Global) -> Result<ValueMap, Error> {
    Ok(ValueMap(vec![in alloc; (Value::Null, Value::Null)]?))
}

fn are_made_of_others(alloc: Global) -> Result<bool, Error> {
    Ok(
        are_equal(
            one_item(alloc).map(Value::from),
            from_slice(&[0xc0, 3, 1, 0x52, 1], alloc),
        )? && are_equal(
            one_item(alloc).map(Array::from).map(Value::from),
            from_slice(&[0xe0, 6, 1, 0x70, 0, 0, 0, 1], alloc),
        )? && are_equal(
            one_pair(alloc).map(Value::from),
            from_slice(&[0xc1, 3, 2, 0x40, 0x40], alloc),
        )?,
    )
}

// What is described in a copy of the value.
fn boxed(value: &Value) -> Result<Box<Described<Value>>, Error> {
    match value.clone()? {
        Value::Described(boxed) => Ok(boxed),
        _ => Err(Error::InvalidValue),
    }
}

fn is_made_of_box(value: &Value) -> Result<bool, Error> {
    let made = Value::from(boxed(value)?);
    Ok(made == *value)
}

fn is_made_of_described(value: &Value, alloc: Global) -> Result<bool, Error> {
    let made = Box::into_inner(boxed(value)?).into_value(alloc)?;
    Ok(made == *value)
}

// Whether the described value is made of what is in it, in its box and out of it.
fn is_made_again(value: Result<Value, Error>, alloc: Global) -> Result<bool, Error> {
    let value = value?;
    let of_described = is_made_of_described(&value, alloc);
    let of_box = is_made_of_box(&value);
    Ok(of_described? && of_box?)
}

#[test]
fn made_of_what_holds_others(rt: HostRuntime) -> Result<(), Fail> {
    let alloc = rt.alloc();
    assert!(rt; are_made_of_others(alloc)?);
    assert!(rt; is_made_again(from_slice(&[0, 0x53, 1, 0x40], alloc), alloc)?);
    Ok(())
}
