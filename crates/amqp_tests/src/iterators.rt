//! Iterators of maps, which a user may name: they are kept in fields and passed to functions.
use fe2o3_amqp_types::codec::{
    Error, OrderedMap, OrderedMapIntoIter, OrderedMapIter, OrderedMapValues, Symbol, Value,
    ValueMap, ValueMapIter, ValueMapValues,
};
use std::alloc::Global;
use std::test::Fail;

// What goes through a map's pairs and through its values.
#[derive(Drop)]
struct Walk<'a> {
    pairs: OrderedMapIter<'a, Symbol, u32>,
    values: OrderedMapValues<'a, Symbol, u32>,
}

// What goes through the pairs and the values of a map of values of any kind.
#[derive(Drop)]
struct WalkOfValues<'a> {
    pairs: ValueMapIter<'a>,
    values: ValueMapValues<'a>,
}

fn put(
    map: &mut OrderedMap<Symbol, u32>,
    key: &str,
    value: u32,
    alloc: Global,
) -> Result<(), Error> {
    let key = Symbol::from_str_in(key, alloc)?;
    map.insert(key, value)?;
    Ok(())
}

fn two_pairs(alloc: Global) -> Result<OrderedMap<Symbol, u32>, Error> {
    let mut map = OrderedMap::new(alloc);
    put(&mut map, "a", 1, alloc)?;
    put(&mut map, "b", 2, alloc)?;
    Ok(map)
}

// Whether two pairs are walked through.
fn is_walked(map: &OrderedMap<Symbol, u32>) -> bool {
    let mut walk = Walk {
        pairs: map.iter(),
        values: map.values(),
    };
    let first = walk.pairs.next();
    first.map(|(key, value)| (key.as_str(), *value)) == Some(("a", 1))
        && walk.values.next() == Some(&1)
        && walk.values.next_back() == Some(&2)
        && walk.values.next().is_none()
}

#[test]
fn iterators_of_an_ordered_map(rt: HostRuntime) -> Result<(), Fail> {
    let map = two_pairs(rt.alloc())?;
    assert!(rt; is_walked(&map));
    Ok(())
}

// Whether the pair is this one.
fn is_pair<K: PartialEq + Drop, V: PartialEq + Drop>(
    pair: Option<(K, V)>,
    key: K,
    value: V,
) -> bool {
    match pair {
        Some((found, its)) => found == key && its == value,
        None => false,
    }
}

#[test]
fn pairs_moved_out_of_an_ordered_map(rt: HostRuntime) -> Result<(), Fail> {
    let key = Symbol(String::from_str(rt.alloc(), "a")?);
    let mut moved: OrderedMapIntoIter<Symbol, u32> = two_pairs(rt.alloc())?.into_iter();
    assert!(rt; is_pair(moved.next(), key, 1));
    Ok(())
}

fn put_two_values(map: &mut ValueMap) -> Result<(), Error> {
    map.insert(Value::Uint(1), Value::Null)?;
    map.insert(Value::Uint(2), Value::Bool(true))?;
    Ok(())
}

// Whether two pairs of values are walked through.
fn are_values_walked(map: &ValueMap) -> bool {
    let mut walk = WalkOfValues {
        pairs: map.iter(),
        values: map.values(),
    };
    walk.pairs.len() == 2
        && walk.pairs.next() == Some((&Value::Uint(1), &Value::Null))
        && walk.pairs.size_hint() == (1, Some(1))
        && walk.values.len() == 2
        && walk.values.next_back() == Some(&Value::Bool(true))
        && walk.values.next() == Some(&Value::Null)
        && walk.values.size_hint() == (0, Some(0))
}

#[test]
fn iterators_of_a_map_of_values(rt: HostRuntime) -> Result<(), Fail> {
    let mut map = ValueMap::new(rt.alloc());
    put_two_values(&mut map)?;
    assert!(rt; are_values_walked(&map));
    Ok(())
}
