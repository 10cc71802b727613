//! Copies of values that hold texts, bytes, lists, maps or boxes. Each value is read from its bytes, and copied.
use amqp_codec::{Descriptor, Error, Symbol};
use amqp_containers::Array;
use amqp_described::Described;
use amqp_lazy::LazyValue;
use amqp_maps::OrderedMap;
use amqp_no_memory_calls::{check, check_copy};
use amqp_primitives::Binary;
use amqp_read_write::from_slice;
use amqp_simple_values::SimpleValue;
use amqp_test_helpers::{are_equal, is_copied};
use amqp_values::{Value, ValueMap};
use std::alloc::Global;

/// An array of one symbol (Part 1, section 1.6.24).
const SYMBOLS: &[u8] = b"\xe0\x07\x01\xb3\x00\x00\x00\x01a";

/// A map of one pair, a uint under a symbol (Part 1, section 1.6.23).
const MAP: &[u8] = b"\xc1\x06\x02\xa3\x01a\x52\x01";

/// Copies all of these, and returns whether every call went as it must.
pub(crate) fn check_all(rt: &HostRuntime) -> Result<bool, anyhow::Error> {
    let mut well = check_copy::<Binary>(rt, "binary", b"\xa0\x01a")?;
    well &= check_copy::<Symbol>(rt, "symbol", b"\xa3\x01a")?;
    well &= check(rt, "descriptor", "clone", is_descriptor_copied)?;
    well &= check_copy::<Array<Symbol>>(rt, "array", SYMBOLS)?;
    well &= check_copy::<OrderedMap<Symbol, u32>>(rt, "ordered map", MAP)?;
    well &= check_values(rt)?;
    Ok(well)
}

fn check_values(rt: &HostRuntime) -> Result<bool, anyhow::Error> {
    let mut well = check_copy::<ValueMap>(rt, "map of values", MAP)?;
    well &= check_copy::<Value>(rt, "value", b"\xc0\x04\x01\xa1\x01a")?;
    well &= check_copy::<SimpleValue>(rt, "simple value", b"\xa1\x01a")?;
    well &= check_copy::<LazyValue>(rt, "lazy value", b"\xa1\x01a")?;
    well &= check(rt, "described value", "clone", is_described_copied)?;
    Ok(well)
}

// A descriptor that is a name.
fn descriptor(alloc: Global) -> Result<Descriptor, Error> {
    let name = String::from_str(alloc, "a")?;
    Ok(Descriptor::Name(Symbol::from(name)))
}

fn is_descriptor_copied(alloc: Global) -> Result<bool, Error> {
    is_copied(descriptor(alloc))
}

fn is_described_copied(alloc: Global) -> Result<bool, Error> {
    let described: Described<u32> = from_slice(b"\x00\xa3\x01a\x52\x07", alloc)?;
    are_equal(described.clone(), Ok(described))
}
