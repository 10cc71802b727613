//! Annotations that are looked up by keys of other types (Part 3, section 3.2.10).
use amqp_annotations::{Annotations, annotation_get, annotation_remove};
use amqp_codec::Error;
use amqp_no_memory_calls::check;
use amqp_read_write::from_slice;
use amqp_test_helpers::is;
use amqp_values::Value;
use std::alloc::Global;

/// A map of one pair, under the key `key`.
const ANNOTATIONS: &[u8] = b"\xc1\x08\x02\xa3\x03key\x52\x01";

/// Makes both calls, and returns whether each went as it must.
pub(crate) fn check_all(rt: &HostRuntime) -> Result<bool, anyhow::Error> {
    let mut well = check(rt, "annotations", "annotation_get", is_found)?;
    well &= check(rt, "annotations", "annotation_remove", is_removed)?;
    Ok(well)
}

fn is_found(alloc: Global) -> Result<bool, Error> {
    let map = from_slice(ANNOTATIONS, alloc)?;
    is_found_in(&map, alloc)
}

fn is_found_in(map: &Annotations, alloc: Global) -> Result<bool, Error> {
    Ok(annotation_get(map, &"key", alloc)? == Some(&Value::Uint(1)))
}

// Whether the value is removed. If the key finds no memory, it stays.
fn is_removed(alloc: Global) -> Result<bool, Error> {
    let mut map = from_slice(ANNOTATIONS, alloc)?;
    is_removed_from(&mut map, alloc)
}

fn is_removed_from(map: &mut Annotations, alloc: Global) -> Result<bool, Error> {
    match annotation_remove(map, &"key", alloc) {
        Ok(removed) => Ok(is(removed, Some(Value::Uint(1))) && map.is_empty()),
        Err(error) if is_kept(map) => Err(error),
        Err(_) => Ok(false),
    }
}

fn is_kept(map: &Annotations) -> bool {
    map.values().next() == Some(&Value::Uint(1))
}
