//! The sections that are maps, and their keys (Part 3, sections 3.2.2, 3.2.3, 3.2.5, 3.2.9 and 3.2.10). The digits are written out by the
//! standard's tables.
use crate::parts::rewritten;
use amqp_annotations::{
    AnnotationKey, Annotations, BorrowedKey, OwnedKey, annotation_get, annotation_remove,
};
use amqp_codec::{Error, Symbol};
use amqp_full_composites::parts::{symbol_of, text_of};
use amqp_map_sections::{ApplicationProperties, DeliveryAnnotations, Footer, MessageAnnotations};
use amqp_primitives::SymbolRef;
use amqp_simple_values::SimpleValue;
use amqp_test_helpers::{are_equal, check_made, check_refused, is, is_copied};
use amqp_values::Value;
use std::alloc::Global;
use std::test::Fail;

fn one_delivery_annotation(alloc: Global) -> Result<DeliveryAnnotations, Error> {
    let key = OwnedKey::from_str_in("key", alloc)?;
    let builder = DeliveryAnnotations::builder(alloc).insert(key, Value::Uint(1))?;
    Ok(builder.build())
}

#[test]
fn delivery_annotations(rt: HostRuntime) -> Result<(), Fail> {
    let alloc = rt.alloc();
    check_made(
        one_delivery_annotation(alloc),
        "005371c10802a3036b65795201",
        alloc,
    )?;
    check_made(Ok(DeliveryAnnotations::new(alloc)), "005371c10100", alloc)?;
    rewritten::<DeliveryAnnotations>(
        "005371c10802a3036b65795201",
        "005371c10802a3036b65795201",
        alloc,
    )
}

fn one_message_annotation(alloc: Global) -> Result<MessageAnnotations, Error> {
    let key = OwnedKey::from(symbol_of("key2", alloc)?);
    let value = Value::String(text_of("v", alloc)?);
    let mut section = MessageAnnotations::new(alloc);
    section.insert(key, value)?;
    Ok(section)
}

fn length_of(section: MessageAnnotations) -> usize {
    section.len()
}

#[test]
fn message_annotations(rt: HostRuntime) -> Result<(), Fail> {
    let alloc = rt.alloc();
    check_made(
        one_message_annotation(alloc),
        "005372c10a02a3046b657932a10176",
        alloc,
    )?;
    assert_eq!(rt; length_of(one_message_annotation(alloc)?), 1usize);
    check_refused::<MessageAnnotations>("005372c10502a1016b40", Error::WrongType(0xa1), alloc)?;
    check_refused::<MessageAnnotations>("005371c10100", Error::WrongDescriptor, alloc)
}

fn footer_of_a_number(alloc: Global) -> Result<Footer, Error> {
    let builder = Footer::builder(alloc).insert(OwnedKey::from(5u64), Value::Null)?;
    Ok(Footer::from(builder))
}

#[test]
fn footers(rt: HostRuntime) -> Result<(), Fail> {
    let alloc = rt.alloc();
    let made: Option<Footer> = Footer::builder(alloc).into();
    assert!(rt; is(made, Some(Footer::new(alloc))));
    check_made(footer_of_a_number(alloc), "005378c10402530540", alloc)?;
    // amqp:footer:map
    rewritten::<Footer>(
        "00a30f616d71703a666f6f7465723a6d6170d10000000400000000",
        "005378c10100",
        alloc,
    )?;
    check_refused::<Footer>("00537845", Error::WrongType(0x45), alloc)
}

fn one_application_property(alloc: Global) -> Result<ApplicationProperties, Error> {
    let key = text_of("sn", alloc)?;
    let builder = ApplicationProperties::builder(alloc).insert(key, SimpleValue::Int(1))?;
    Ok(builder.build())
}

#[test]
fn application_properties(rt: HostRuntime) -> Result<(), Fail> {
    let alloc = rt.alloc();
    check_made(
        one_application_property(alloc),
        "005374c10702a102736e5401",
        alloc,
    )?;
    check_made(Ok(ApplicationProperties::new(alloc)), "005374c10100", alloc)?;
    check_refused::<ApplicationProperties>("005374c10502a3016b40", Error::WrongType(0xa3), alloc)?;
    check_refused::<ApplicationProperties>("005374c10502a1016b45", Error::InvalidValue, alloc)
}

#[test]
fn equal_keys_are_refused(rt: HostRuntime) -> Result<(), Fail> {
    let alloc = rt.alloc();
    let symbols = "005372c10904a3016b40a3016b40";
    check_refused::<MessageAnnotations>(symbols, Error::DuplicateKey, alloc)?;
    check_refused::<Footer>("005378c106044440530040", Error::DuplicateKey, alloc)?;
    let strings = "005374c10904a1016b40a1016b40";
    check_refused::<ApplicationProperties>(strings, Error::DuplicateKey, alloc)
}

fn one_and_the_other(
    first: OwnedKey,
    second: OwnedKey,
    alloc: Global,
) -> Result<Annotations, Error> {
    let mut map = Annotations::new(alloc);
    map.insert(first, Value::Bool(true))?;
    map.insert(second, Value::Bool(false))?;
    Ok(map)
}

#[test]
fn symbols_and_numbers_in_both_orders(rt: HostRuntime) -> Result<(), Fail> {
    let alloc = rt.alloc();
    let symbol = OwnedKey::from_str_in("a", alloc)?;
    let map = one_and_the_other(symbol, OwnedKey::Ulong(5), alloc);
    check_made(map, "c10804a3016141530542", alloc)?;
    let symbol = OwnedKey::from_symbol_ref(SymbolRef("a"), alloc)?;
    let other = one_and_the_other(OwnedKey::Ulong(5), symbol, alloc);
    check_made(other, "c10804530541a3016142", alloc)
}

fn insert(map: &mut Annotations, key: Result<OwnedKey, Error>, number: u32) -> Result<(), Error> {
    map.insert(key?, Value::Uint(number))?;
    Ok(())
}

/// Returns a map with a number under each of five symbols, in this order.
fn five(keys: [&str; 5], alloc: Global) -> Result<Annotations, Error> {
    let mut map = Annotations::new(alloc);
    for key in keys {
        let Ok(len) = u32::try_from(key.len()) else {
            return Err(Error::TooLarge);
        };
        insert(&mut map, OwnedKey::from_str_in(key, alloc), len)?;
    }
    Ok(map)
}

fn is_number(found: Option<&Value>, number: u32) -> bool {
    found == Some(&Value::Uint(number))
}

/// Checks that the value under the key is found, and is removed.
fn taken<K: AnnotationKey>(
    map: &mut Annotations,
    key: &K,
    number: u32,
    alloc: Global,
) -> Result<(), Fail> {
    if !is_number(annotation_get(map, key, alloc)?, number) {
        return Err(Fail::new(format_args!("{number} isn't found")));
    }
    let removed = annotation_remove(map, key, alloc)?;
    if !is(removed, Some(Value::Uint(number))) {
        return Err(Fail::new(format_args!("{number} isn't removed")));
    }
    if annotation_get(map, key, alloc)?.is_some() {
        return Err(Fail::new(format_args!("{number} is still found")));
    }
    Ok(())
}

fn take_each_type(map: &mut Annotations, alloc: Global) -> Result<(), Fail> {
    taken(map, &text_of("string_key", alloc)?, 10, alloc)?;
    taken(map, &"str_key", 7, alloc)?;
    taken(map, &symbol_of("symbol_key_", alloc)?, 11, alloc)?;
    taken(map, &SymbolRef("symbol_ref_key"), 14, alloc)?;
    taken(map, &"u64_key_", 8, alloc)
}

#[test]
fn annotations_are_removed_by_any_key(rt: HostRuntime) -> Result<(), Fail> {
    let alloc = rt.alloc();
    let keys = [
        "string_key",
        "str_key",
        "symbol_key_",
        "symbol_ref_key",
        "u64_key_",
    ];
    let mut map = five(keys, alloc)?;
    take_each_type(&mut map, alloc)?;
    assert!(rt; map.is_empty());
    Ok(())
}

fn insert_numbers_and_symbols(map: &mut Annotations, alloc: Global) -> Result<(), Error> {
    insert(map, Ok(OwnedKey::Ulong(3)), 3)?;
    insert(map, OwnedKey::from_str_in("four", alloc), 4)?;
    insert(map, Ok(OwnedKey::Ulong(5)), 5)?;
    insert(map, OwnedKey::from_str_in("3", alloc), 9)
}

fn take_numbers_and_symbols(map: &mut Annotations, alloc: Global) -> Result<(), Fail> {
    taken(map, &3u64, 3, alloc)?;
    taken(map, &OwnedKey::from_str_in("four", alloc)?, 4, alloc)?;
    taken(map, &BorrowedKey::Ulong(&5), 5, alloc)?;
    taken(map, &BorrowedKey::Symbol(SymbolRef("3")), 9, alloc)
}

#[test]
fn annotations_are_found_by_numbers_and_keys(rt: HostRuntime) -> Result<(), Fail> {
    let alloc = rt.alloc();
    let mut map = Annotations::new(alloc);
    insert_numbers_and_symbols(&mut map, alloc)?;
    take_numbers_and_symbols(&mut map, alloc)?;
    assert!(rt; map.is_empty());
    Ok(())
}

#[test]
fn order_counts(rt: HostRuntime) -> Result<(), Fail> {
    let alloc = rt.alloc();
    let keys = ["a", "bb", "ccc", "dddd", "eeeee"];
    let other = ["bb", "a", "ccc", "dddd", "eeeee"];
    assert!(rt; are_equal(five(keys, alloc), five(keys, alloc))?);
    assert!(rt; !are_equal(five(keys, alloc), five(other, alloc))?);
    Ok(())
}

fn text_key(alloc: Global) -> Result<OwnedKey, Error> {
    text_of("a", alloc).map(OwnedKey::from)
}

// Whether the key is a symbol, which stands between the empty one and each number.
fn is_in_order(text: OwnedKey, alloc: Global) -> bool {
    text.key() == BorrowedKey::Symbol(SymbolRef("a"))
        && text < OwnedKey::Ulong(0)
        && text.key() < 0u64.key()
        && OwnedKey::default_in(alloc) < text
}

#[test]
fn keys_and_their_order(rt: HostRuntime) -> Result<(), Fail> {
    let alloc = rt.alloc();
    let symbol = text_of("a", alloc).map(Symbol).map(OwnedKey::from);
    assert!(rt; are_equal(text_key(alloc), symbol)?);
    assert!(rt; is_in_order(text_key(alloc)?, alloc));
    assert_eq!(rt; OwnedKey::Ulong(7).key(), 7u64.key());
    check_made(text_key(alloc), "a30161", alloc)?;
    rewritten::<OwnedKey>("800000000000000007", "5307", alloc)?;
    rewritten::<OwnedKey>("b30000000161", "a30161", alloc)?;
    check_refused::<OwnedKey>("a10161", Error::WrongType(0xa1), alloc)?;
    check_refused::<OwnedKey>("5207", Error::WrongType(0x52), alloc)?;
    check_refused::<OwnedKey>("a301ff", Error::NonAscii, alloc)
}

#[test]
fn copies_of_maps(rt: HostRuntime) -> Result<(), Fail> {
    let alloc = rt.alloc();
    let keys = ["a", "bb", "ccc", "dddd", "eeeee"];
    assert!(rt; is_copied(OwnedKey::from_str_in("a", alloc))?);
    assert!(rt; is_copied(five(keys, alloc).map(DeliveryAnnotations))?);
    assert!(rt; is_copied(five(keys, alloc).map(MessageAnnotations))?);
    assert!(rt; is_copied(five(keys, alloc).map(Footer))?);
    assert!(rt; is_copied(one_application_property(alloc))?);
    Ok(())
}
