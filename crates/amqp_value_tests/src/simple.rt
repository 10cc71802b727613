//! Simple values: what they are made of and what they return.
use crate::parts::{is_taken_of, order_of};
use amqp_codec::{Error, MapKey, Symbol};
use amqp_containers::Array;
use amqp_described::Described;
use amqp_maps::OrderedMap;
use amqp_primitives::{Binary, Dec32, Dec64, Dec128, Timestamp, Uuid};
use amqp_read_write::from_slice;
use amqp_simple_values::SimpleValue;
use amqp_test_helpers::{
    are_equal, have_equal_hashes, is, is_copied, is_given_back, is_less, is_read, is_refused,
    is_taken, read,
};
use amqp_values::{Value, ValueMap};
use amqp_wire::Descriptor;
use std::alloc::Global;
use std::cmp::Ordering;
use std::test::Fail;

/// A value of each kind.
const KINDS: [&str; 21] = [
    "40",
    "41",
    "5007",
    "600102",
    "5207",
    "5307",
    "51ff",
    "61ff00",
    "5480",
    "5580",
    "7401020304",
    "840102030405060708",
    "940102030405060708090a0b0c0d0e0f10",
    "7300000041",
    "83ffffffffffffffff",
    "980102030405060708090a0b0c0d0e0f10",
    "a00161",
    "a10161",
    "a30161",
    "00532445",
    "005324e0020040",
];

fn has_code(simple: &SimpleValue, code: u8) -> bool {
    simple.format_code() == code
}

// Whether the simple value has the code of the value of any kind.
fn has_code_of(
    simple: Result<SimpleValue, Error>,
    value: Result<Value, Error>,
) -> Result<bool, Error> {
    let value = value?;
    let simple = simple?;
    Ok(has_code(&simple, value.format_code()))
}

fn simple(input: &[u8], alloc: Global) -> Result<SimpleValue, Error> {
    from_slice(input, alloc)
}

fn value(input: &[u8], alloc: Global) -> Result<Value, Error> {
    from_slice(input, alloc)
}

// Whether the value that the bytes are is simple, and of any kind, and one is made of the other.
fn is_of_both_types(input: &[u8], alloc: Global) -> Result<bool, Error> {
    Ok(
        is_copied(simple(input, alloc))?
            && has_code_of(simple(input, alloc), value(input, alloc))?
            && are_equal(simple(input, alloc).map(Value::from), value(input, alloc))?
            && are_equal(
                value(input, alloc).and_then(SimpleValue::try_from),
                simple(input, alloc),
            )?,
    )
}

fn is_not_simple(value: Value) -> bool {
    is_refused(SimpleValue::try_from(value), Error::InvalidValue)
}

#[test]
fn as_values_of_any_kind_and_back(rt: HostRuntime) -> Result<(), Fail> {
    let alloc = rt.alloc();
    for digits in &KINDS {
        let input = hex::decode(alloc, *digits)?;
        assert!(rt; is_of_both_types(input.as_slice(), alloc)?, "of {digits}");
    }
    assert!(rt; is_not_simple(Value::List(Vec::new(alloc))));
    assert!(rt; is_not_simple(Value::Map(ValueMap::new(alloc))));
    assert!(rt; is_not_simple(Value::Array(Array::from(Vec::new(alloc)))));
    Ok(())
}

fn are_numbers_given_back() -> bool {
    is(SimpleValue::from(()), SimpleValue::default())
        && is_taken(bool::try_from(SimpleValue::from(true)), true)
        && is_taken(u8::try_from(SimpleValue::from(1u8)), 1)
        && is_taken(u16::try_from(SimpleValue::from(2u16)), 2)
        && is_taken(u32::try_from(SimpleValue::from(3u32)), 3)
        && is_taken(u64::try_from(SimpleValue::from(4u64)), 4)
        && is_taken(i8::try_from(SimpleValue::from(-1i8)), -1)
        && is_taken(i16::try_from(SimpleValue::from(-2i16)), -2)
        && is_taken(i32::try_from(SimpleValue::from(-3i32)), -3)
        && is_taken(i64::try_from(SimpleValue::from(-4i64)), -4)
        && is_taken(char::try_from(SimpleValue::from('a')), 'a')
}

fn are_bytes_given_back() -> bool {
    is_taken(
        Dec32::try_from(SimpleValue::from(Dec32([1; 4]))),
        Dec32([1; 4]),
    ) && is_taken(
        Dec64::try_from(SimpleValue::from(Dec64([2; 8]))),
        Dec64([2; 8]),
    ) && is_taken(
        Dec128::try_from(SimpleValue::from(Dec128([3; 16]))),
        Dec128([3; 16]),
    ) && is_taken(
        Timestamp::try_from(SimpleValue::from(Timestamp(-1))),
        Timestamp(-1),
    ) && is_taken(
        Uuid::try_from(SimpleValue::from(Uuid([4; 16]))),
        Uuid([4; 16]),
    )
}

#[test]
fn numbers_and_back(rt: HostRuntime) {
    assert!(rt; are_numbers_given_back());
    assert!(rt; are_bytes_given_back());
}

fn has_each_number_its_kind() -> bool {
    is(SimpleValue::from(true), SimpleValue::Bool(true))
        && is(SimpleValue::from(1u8), SimpleValue::Ubyte(1))
        && is(SimpleValue::from(1u16), SimpleValue::Ushort(1))
        && is(SimpleValue::from(1u32), SimpleValue::Uint(1))
        && is(SimpleValue::from(1u64), SimpleValue::Ulong(1))
        && is(SimpleValue::from(1i8), SimpleValue::Byte(1))
        && is(SimpleValue::from(1i16), SimpleValue::Short(1))
        && is(SimpleValue::from(1i32), SimpleValue::Int(1))
        && is(SimpleValue::from(1i64), SimpleValue::Long(1))
        && !is(SimpleValue::Uint(1), SimpleValue::Ulong(1))
}

#[test]
fn each_type_has_its_kind(rt: HostRuntime) {
    assert!(rt; has_each_number_its_kind());
    assert!(rt; has_code(&SimpleValue::from('a'), 0x73));
    assert!(rt; has_code(&SimpleValue::Null, 0x40));
    assert!(rt; is_given_back(u32::try_from(SimpleValue::Ulong(7)), SimpleValue::Ulong(7)));
    assert!(rt; is_given_back(bool::try_from(SimpleValue::Null), SimpleValue::Null));
}

fn simple_text(text: &str, alloc: Global) -> Result<SimpleValue, Error> {
    SimpleValue::from_str_in(text, alloc)
}

fn text(alloc: Global) -> Result<String, Error> {
    Ok(String::from_str(alloc, "é")?)
}

fn symbol(alloc: Global) -> Result<Symbol, Error> {
    Ok(Symbol::from_str_in("a", alloc)?)
}

fn binary(alloc: Global) -> Result<Binary, Error> {
    Ok(Binary(Vec::from_array(alloc, [1, 2])?))
}

fn are_texts_read(alloc: Global) -> Result<bool, Fail> {
    Ok(
        is_read("a102c3a9", simple_text("é", alloc), alloc)?
            && is_read("a30161", symbol(alloc).map(SimpleValue::from), alloc)?
            && is_read("a0020102", binary(alloc).map(SimpleValue::from), alloc)?,
    )
}

fn are_texts_given_back(alloc: Global) -> Result<bool, Error> {
    Ok(
        is_taken_of(simple_text("é", alloc), text(alloc))?
            && is_taken_of(symbol(alloc).map(SimpleValue::from), symbol(alloc))?
            && is_taken_of(binary(alloc).map(SimpleValue::from), binary(alloc))?,
    )
}

#[test]
fn texts_and_back(rt: HostRuntime) -> Result<(), Fail> {
    let alloc = rt.alloc();
    assert!(rt; are_texts_read(alloc)?);
    assert!(rt; has_code(&simple_text("é", alloc)?, 0xb1));
    assert!(rt; are_equal(simple_text("é", alloc), text(alloc).map(SimpleValue::from))?);
    assert!(rt; are_texts_given_back(alloc)?);
    Ok(())
}

// Whether an equal key is found in a map that has the key alone.
fn is_found<K: MapKey>(
    key: Result<K, Error>,
    equal: Result<K, Error>,
    alloc: Global,
) -> Result<bool, Error> {
    let equal = equal?;
    let mut map: OrderedMap<K, u32> = OrderedMap::new(alloc);
    map.insert(key?, 1)?;
    Ok(map.get(&equal) == Some(&1))
}

fn are_equal_texts_one_key(alloc: Global) -> Result<bool, Error> {
    Ok(
        order_of(simple_text("a", alloc), simple_text("a", alloc))? == Ordering::Equal
            && have_equal_hashes(simple_text("a", alloc), simple_text("a", alloc))?
            && is_found(simple_text("a", alloc), simple_text("a", alloc), alloc)?,
    )
}

fn is_a_before_b(alloc: Global) -> Result<bool, Error> {
    Ok(
        is_less(simple_text("a", alloc), simple_text("b", alloc))?
            && !have_equal_hashes(simple_text("a", alloc), simple_text("b", alloc))?,
    )
}

// The kinds are ordered as they are declared, and values of one kind by what they hold.
#[test]
fn order_and_hashes(rt: HostRuntime) -> Result<(), Fail> {
    let alloc = rt.alloc();
    assert!(rt; is_less(Ok(SimpleValue::Uint(9)), Ok(SimpleValue::Ulong(1)))?);
    assert!(rt; is_less(Ok(SimpleValue::Uint(1)), Ok(SimpleValue::Uint(9)))?);
    assert!(rt; is_less(Ok(SimpleValue::Null), simple_text("a", alloc))?);
    assert!(rt; are_equal_texts_one_key(alloc)?);
    assert!(rt; is_a_before_b(alloc)?);
    Ok(())
}

fn described_list(alloc: Global) -> Result<SimpleValue, Error> {
    let described = Described {
        descriptor: Descriptor::Code(0x24),
        value: Value::List(Vec::new(alloc)),
    };
    Ok(SimpleValue::Described(Box::new(alloc, described)?))
}

#[test]
fn a_described_list_is_simple(rt: HostRuntime) -> Result<(), Fail> {
    let alloc = rt.alloc();
    assert!(rt; is_read("00532445", described_list(alloc), alloc)?);
    assert!(rt; has_code(&read("00532445", alloc)?, 0));
    assert!(rt; !is_read("00532545", described_list(alloc), alloc)?);
    Ok(())
}

// Whether the value has the code, or memory ran out.
fn has_code_if_made(simple: Result<SimpleValue, Error>, code: u8) -> bool {
    match simple {
        Ok(simple) => has_code(&simple, code),
        Err(error) => error == Error::Memory,
    }
}

// Each growth is refused in turn by hand: `rt try --test --fail-alloc N`, for N from 1 on.
#[test]
fn want_of_memory_is_named(rt: HostRuntime) {
    let alloc = rt.alloc();
    assert!(rt; has_code_if_made(simple_text("é", alloc), 0xb1));
    let described = &[0x00, 0x53, 0x24, 0xa1, 0x01, 0x61];
    assert!(rt; has_code_if_made(from_slice(described, alloc), 0));
}
