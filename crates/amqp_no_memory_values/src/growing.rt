//! Arrays and maps that grow.
use amqp_codec::Error;
use amqp_containers::Array;
use amqp_maps::OrderedMap;
use amqp_no_memory_calls::{Growing, check_growing};
use amqp_values::{Value, ValueMap};
use std::alloc::Global;

/// An array of the numbers from 0 to 4 (Part 1, section 1.6.24).
const NUMBERS: &[u8] =
    b"\xe0\x16\x05\x70\x00\x00\x00\x00\x00\x00\x00\x01\x00\x00\x00\x02\x00\x00\x00\x03\x00\x00\x00\x04";

/// A map in which each of these numbers is under itself (Part 1, section 1.6.23).
const PAIRS: &[u8] =
    b"\xc1\x13\x0a\x43\x43\x52\x01\x52\x01\x52\x02\x52\x02\x52\x03\x52\x03\x52\x04\x52\x04";

/// Numbers of an array.
struct Numbers;

impl Growing for Numbers {
    type Grown = Array<u32>;

    fn begun(alloc: Global) -> Result<Array<u32>, Error> {
        Ok(Array::from(Vec::new(alloc)))
    }

    fn grow(grown: &mut Array<u32>, number: u8, _alloc: Global) -> Result<(), Error> {
        grown.push(u32::from(number))
    }
}

/// Pairs of a map whose keys are of one type.
struct Pairs;

impl Growing for Pairs {
    type Grown = OrderedMap<u32, u32>;

    fn begun(alloc: Global) -> Result<OrderedMap<u32, u32>, Error> {
        Ok(OrderedMap::new(alloc))
    }

    fn grow(grown: &mut OrderedMap<u32, u32>, number: u8, _alloc: Global) -> Result<(), Error> {
        let _replaced = grown.insert(u32::from(number), u32::from(number))?;
        Ok(())
    }
}

/// Pairs of a map of any keys and values.
struct PairsOfValues;

impl Growing for PairsOfValues {
    type Grown = ValueMap;

    fn begun(alloc: Global) -> Result<ValueMap, Error> {
        Ok(ValueMap::new(alloc))
    }

    fn grow(grown: &mut ValueMap, number: u8, _alloc: Global) -> Result<(), Error> {
        let number = u32::from(number);
        let _replaced = grown.insert(Value::Uint(number), Value::Uint(number))?;
        Ok(())
    }
}

/// Adds values to all of these, and returns whether every call went as it must.
pub(crate) fn check_all(rt: &HostRuntime) -> Result<bool, anyhow::Error> {
    let mut well = check_growing::<Numbers>(rt, "array", "push", NUMBERS)?;
    well &= check_growing::<Pairs>(rt, "ordered map", "insert", PAIRS)?;
    well &= check_growing::<PairsOfValues>(rt, "map of values", "insert", PAIRS)?;
    Ok(well)
}
