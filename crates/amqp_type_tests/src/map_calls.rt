//! The calls of a map, and what no contract states: that a failed allocation changes nothing in fact.
use amqp_maps::OrderedMap;
use amqp_test_helpers::{have_equal_hashes, is_copied};
use amqp_wire::{Error, Symbol};
use std::alloc::Global;
use std::cmp::Ordering;
use std::test::Fail;

fn made(pairs: &[(u32, u32)], alloc: Global) -> Result<OrderedMap<u32, u32>, Error> {
    let mut map = OrderedMap::new(alloc);
    for pair in pairs {
        map.insert(pair.0, pair.1)?;
    }
    Ok(map)
}

// Whether the map's pairs are these, in this order.
fn is_row(map: &OrderedMap<u32, u32>, pairs: &[(u32, u32)]) -> bool {
    if map.len() != pairs.len() {
        return false;
    }
    let mut rest = map.iter();
    for pair in pairs {
        if rest.next() != Some((&pair.0, &pair.1)) {
            return false;
        }
    }
    true
}

fn is_value_replaced(map: &mut OrderedMap<u32, u32>) -> bool {
    map.insert(3, 5) == Ok(Some(2))
        && is_row(map, &[(7, 1), (3, 5), (9, 3)])
        && map.get(&3) == Some(&5)
        && map.get(&4).is_none()
}

fn is_key_removed(map: &mut OrderedMap<u32, u32>) -> bool {
    map.shift_remove(&7) == Some(1)
        && map.shift_remove(&7).is_none()
        && is_row(map, &[(3, 5), (9, 3)])
}

fn is_key_put_last(map: &mut OrderedMap<u32, u32>) -> bool {
    map.insert(7, 4) == Ok(None)
        && is_row(map, &[(3, 5), (9, 3), (7, 4)])
        && !map.is_empty()
        && map.values().next() == Some(&5)
}

#[test]
fn keys_keep_their_places(rt: HostRuntime) -> Result<(), Fail> {
    let mut map = made(&[(7, 1), (3, 2), (9, 3)], rt.alloc())?;
    let well = is_value_replaced(&mut map) && is_key_removed(&mut map) && is_key_put_last(&mut map);
    assert!(rt; well);
    Ok(())
}

// Whether a ninth key goes last.
fn is_ninth_put(map: &mut OrderedMap<u32, u32>) -> bool {
    map.insert(1, 9) == Ok(None)
        && map.len() == 9
        && map.get(&1) == Some(&9)
        && map.get(&9) == Some(&1)
        && map.get(&0).is_none()
}

// Eight keys are looked up one by one, and more by their hashes. A map that has had more is equal to one that hasn't.
#[test]
fn many_keys_keep_their_places(rt: HostRuntime) -> Result<(), Fail> {
    let alloc = rt.alloc();
    let pairs = &[
        (9, 1),
        (8, 2),
        (7, 3),
        (6, 4),
        (5, 5),
        (4, 6),
        (3, 7),
        (2, 8),
    ];
    let mut map = made(pairs, alloc)?;
    let well = is_ninth_put(&mut map) && map.shift_remove(&1) == Some(9) && is_row(&map, pairs);
    assert!(rt; well);
    assert!(rt; made(pairs, alloc)? == map);
    assert!(rt; have_equal_hashes(made(pairs, alloc), Ok(map))?);
    Ok(())
}

// Whether the map of two pairs, 1 to 2 and 3 to 4, compares so with the map of these.
fn compares(pairs: &[(u32, u32)], order: Ordering, alloc: Global) -> Result<bool, Error> {
    let other = made(pairs, alloc)?;
    let map = made(&[(1, 2), (3, 4)], alloc)?;
    Ok(map.cmp(&other) == order && (map == other) == (order == Ordering::Equal))
}

#[test]
fn maps_compare_as_lists_of_pairs(rt: HostRuntime) -> Result<(), Fail> {
    let alloc = rt.alloc();
    let rows: [(&[(u32, u32)], Ordering); 5] = [
        (&[(1, 2), (3, 4)], Ordering::Equal),
        (&[(3, 4), (1, 2)], Ordering::Less),
        (&[(1, 2)], Ordering::Greater),
        (&[(1, 1), (3, 9)], Ordering::Greater),
        (&[(1, 2), (3, 5)], Ordering::Less),
    ];
    for (pairs, order) in rows {
        assert!(rt; compares(pairs, order, alloc)?, "of {pairs:?}");
    }
    assert!(rt; is_copied(made(&[(1, 2), (3, 4)], alloc))?);
    Ok(())
}

fn lends_pairs(map: &OrderedMap<u32, u32>) -> bool {
    let mut lent = map.into_iter();
    lent.next_back() == Some((&3, &2)) && lent.next() == Some((&7, &1)) && lent.next().is_none()
}

fn lends_values(map: &OrderedMap<u32, u32>) -> bool {
    let mut values = map.values();
    values.next() == Some(&1) && values.next() == Some(&2) && values.next().is_none()
}

fn moves_pairs(map: OrderedMap<u32, u32>, alloc: Global) -> Result<bool, Error> {
    let pairs: Vec<(u32, u32)> = map.into_iter().collect(alloc)?;
    Ok(pairs.as_slice() == [(7, 1), (3, 2)].as_slice())
}

#[test]
fn pairs_in_their_order(rt: HostRuntime) -> Result<(), Fail> {
    let map = made(&[(7, 1), (3, 2)], rt.alloc())?;
    let are_lent = lends_pairs(&map) && lends_values(&map);
    let are_moved = moves_pairs(map, rt.alloc())?;
    assert!(rt; are_lent && are_moved);
    Ok(())
}

#[test]
fn equal_maps_have_equal_hashes(rt: HostRuntime) -> Result<(), Fail> {
    let alloc = rt.alloc();
    let pairs = &[(7, 1), (3, 2)];
    let turned = &[(3, 2), (7, 1)];
    assert!(rt; have_equal_hashes(made(pairs, alloc), made(pairs, alloc))?);
    assert!(rt; !have_equal_hashes(made(pairs, alloc), made(turned, alloc))?);
    Ok(())
}

// How many keys these texts are.
fn keys_of(texts: &[&str], alloc: Global) -> Result<usize, Error> {
    let mut map = OrderedMap::new(alloc);
    for text in texts {
        map.insert(Symbol::from_str_in(text, alloc)?, true)?;
    }
    Ok(map.len())
}

#[test]
fn symbols_are_keys(rt: HostRuntime) -> Result<(), Fail> {
    assert_eq!(rt; keys_of(&["a", "b", "a"], rt.alloc())?, 2);
    Ok(())
}

// Whether the key is put into the map, or the map is as it was, since memory ran out.
fn is_put(map: &mut OrderedMap<u32, u32>, key: u32) -> bool {
    let was = map.len();
    match map.insert(key, key) {
        Ok(old) => old.is_none(),
        Err(error) => error == Error::Memory && map.len() == was && map.get(&key).is_none(),
    }
}

// Twenty keys take eleven allocations: two for a row, five for a table and four for its growth. Each is refused in turn by hand:
// `rt try --test --fail-alloc N`, for N from 1 to 11.
#[test]
fn refused_growth(rt: HostRuntime) {
    let mut map = OrderedMap::new(rt.alloc());
    for key in 0..20u32 {
        assert!(rt; is_put(&mut map, key), "of {key}");
    }
}
