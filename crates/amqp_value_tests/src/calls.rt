//! The calls of maps of values of any kind, copies, and what is moved out of values.
use amqp_codec::Error;
use amqp_test_helpers::{is, is_given_back, is_made, is_refused, is_taken, read};
use amqp_values::{Value, ValueMap};
use std::alloc::Global;
use std::test::Fail;
use std::vec::IntoIter;

// Whether each call that puts a pair into an empty map answers what it replaces.
fn is_filled(map: &mut ValueMap) -> Result<bool, Error> {
    Ok(
        map.is_empty()
            && is_made(map.insert(Value::Uint(1), Value::Null), None)?
            && is_made(map.insert(Value::Ulong(1), Value::Bool(true)), None)?
            && is_made(
                map.insert(Value::Uint(1), Value::Byte(-1)),
                Some(Value::Null),
            )?,
    )
}

fn has_both_pairs(map: &ValueMap) -> bool {
    map.len() == 2
        && map.get(&Value::Uint(1)) == Some(&Value::Byte(-1))
        && map.get(&Value::Ushort(1)).is_none()
        && map.iter().next() == Some((&Value::Uint(1), &Value::Byte(-1)))
        && map.values().next_back() == Some(&Value::Bool(true))
}

// Whether a pair is taken out of the map alone, and not out of its copy.
fn is_removed(map: &mut ValueMap, copy: &ValueMap) -> bool {
    *copy == *map && is(map.shift_remove(&Value::Uint(1)), Some(Value::Byte(-1))) && *copy != *map
}

#[test]
fn calls_of_a_map(rt: HostRuntime) -> Result<(), Fail> {
    let mut map = ValueMap::new(rt.alloc());
    let is_filled = is_filled(&mut map)?;
    let copy = map.clone()?;
    let well = is_filled
        && has_both_pairs(&map)
        && is_removed(&mut map, &copy)
        && map.into_inner().len() == 1;
    assert!(rt; well);
    Ok(())
}

fn lends_pairs(map: &ValueMap) -> bool {
    let mut lent = map.into_iter();
    lent.next_back() == Some((&Value::Uint(3), &Value::Bool(true)))
        && lent.next() == Some((&Value::Uint(7), &Value::Null))
        && lent.next().is_none()
}

// Whether the pairs are these two, in this order.
fn are_pairs<K: PartialEq + Drop, V: PartialEq + Drop>(
    mut pairs: IntoIter<(K, V)>,
    first: (K, V),
    second: (K, V),
) -> bool {
    is(pairs.next(), Some(first)) && is(pairs.next(), Some(second)) && pairs.next().is_none()
}

fn moves_pairs(map: ValueMap) -> bool {
    are_pairs(
        map.into_iter(),
        (Value::Uint(7), Value::Null),
        (Value::Uint(3), Value::Bool(true)),
    )
}

#[test]
fn pairs_in_their_order(rt: HostRuntime) -> Result<(), Fail> {
    let mut map = ValueMap::new(rt.alloc());
    map.insert(Value::Uint(7), Value::Null)?;
    map.insert(Value::Uint(3), Value::Bool(true))?;
    let are_lent = lends_pairs(&map);
    let are_moved = moves_pairs(map);
    assert!(rt; are_lent && are_moved);
    Ok(())
}

// Two pairs, whose keys are 1 and 2; and ten, whose keys are 1 to 10.
const TWO_PAIRS: &str = "c10704520140520240";

const TEN_PAIRS: &str = "c11f14520140520240520340520440520540520640520740520840520940520a40";

// The map of the pairs with these digits, of which the first has another key.
fn with_first_key(
    digits: &str,
    key: Value,
    alloc: Global,
) -> Result<Result<ValueMap, Error>, Fail> {
    let map: ValueMap = read(digits, alloc)?;
    let mut pairs = map.into_inner();
    if !pairs.is_empty() {
        pairs[0].0 = key;
    }
    Ok(ValueMap::from_pairs(pairs))
}

// Whether the pairs with these digits, of which the first has the key 1, are made the map that is read from them.
fn is_made_of_pairs(digits: &str, alloc: Global) -> Result<bool, Fail> {
    let wanted: ValueMap = read(digits, alloc)?;
    let made = with_first_key(digits, Value::Uint(1), alloc)?;
    Ok(is_made(made, wanted)?)
}

#[test]
fn maps_of_pairs(rt: HostRuntime) -> Result<(), Fail> {
    let alloc = rt.alloc();
    let are_made = is_made_of_pairs(TWO_PAIRS, alloc)? && is_made_of_pairs(TEN_PAIRS, alloc)?;
    let few = with_first_key(TWO_PAIRS, Value::Uint(2), alloc)?;
    let few_are_refused = is_refused(few, Error::DuplicateKey);
    let many = with_first_key(TEN_PAIRS, Value::Uint(10), alloc)?;
    assert!(rt; are_made && few_are_refused && is_refused(many, Error::DuplicateKey));
    Ok(())
}

fn has_code(value: Value, code: u8) -> bool {
    value.format_code() == code
}

#[test]
fn what_is_taken_out(rt: HostRuntime) {
    assert!(rt; is_taken(u32::try_from(Value::Uint(7)), 7));
    assert!(rt; is_given_back(u32::try_from(Value::Ulong(7)), Value::Ulong(7)));
    assert!(rt; is(Value::from(true), Value::Bool(true)));
    assert!(rt; has_code(Value::Uint(0), 0x70));
    assert!(rt; has_code(Value::Bool(true), 0x56));
    assert!(rt; has_code(Value::Null, 0x40));
}
