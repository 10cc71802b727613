//! Keys and sections that calls make (Part 3, section 3.2).
use amqp_annotations::OwnedKey;
use amqp_codec::Error;
use amqp_map_sections::{ApplicationProperties, DeliveryAnnotations, MapBuilder};
use amqp_no_memory_calls::{check, is_text};
use amqp_primitives::SymbolRef;
use amqp_sections::Data;
use amqp_simple_values::SimpleValue;
use amqp_values::Value;
use std::alloc::Global;

/// A key that is a symbol.
const KEY: &[u8] = b"\xa3\x03key";

/// Delivery annotations of one pair.
const ANNOTATIONS: &[u8] = b"\x00\x53\x71\xc1\x08\x02\xa3\x03key\x52\x01";

/// Application properties of one pair.
const PROPERTIES: &[u8] = b"\x00\x53\x74\xc1\x07\x02\xa1\x02sn\x54\x01";

/// Makes all of these, and returns whether every call went as it must.
pub(crate) fn check_all(rt: &HostRuntime) -> Result<bool, anyhow::Error> {
    let mut well = check(rt, "key", "from_str_in", is_key_of_a_text)?;
    well &= check(rt, "key", "from_symbol_ref", is_key_of_a_symbol)?;
    well &= check(rt, "data", "copy_of", are_bytes_copied)?;
    well &= check(rt, "delivery annotations", "insert", are_annotations_built)?;
    well &= check(rt, "application properties", "insert", are_properties_built)?;
    Ok(well)
}

fn is_key_of_a_text(alloc: Global) -> Result<bool, Error> {
    is_text(OwnedKey::from_str_in("key", alloc), KEY, alloc)
}

fn is_key_of_a_symbol(alloc: Global) -> Result<bool, Error> {
    let key = OwnedKey::from_symbol_ref(SymbolRef("key"), alloc);
    is_text(key, KEY, alloc)
}

fn are_bytes_copied(alloc: Global) -> Result<bool, Error> {
    let section = Data::copy_of(b"abc", alloc);
    is_text(section, b"\x00\x53\x75\xa0\x03abc", alloc)
}

fn are_annotations_built(alloc: Global) -> Result<bool, Error> {
    let key = OwnedKey::from_str_in("key", alloc)?;
    let builder = DeliveryAnnotations::builder(alloc).insert(key, Value::Uint(1));
    is_text(builder.map(MapBuilder::build), ANNOTATIONS, alloc)
}

fn are_properties_built(alloc: Global) -> Result<bool, Error> {
    let key = String::from_str(alloc, "sn")?;
    let builder = ApplicationProperties::builder(alloc).insert(key, SimpleValue::Int(1));
    is_text(builder.map(MapBuilder::build), PROPERTIES, alloc)
}
