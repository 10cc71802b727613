//! What values of any kind are made of, and what is moved out of them again.
use crate::parts::{is_kept, is_taken_of};
use amqp_codec::{Descriptor, Error, Symbol};
use amqp_containers::Array;
use amqp_described::Described;
use amqp_primitives::{Binary, Dec32, Dec64, Dec128, Timestamp, Uuid};
use amqp_test_helpers::{are_equal, is, is_given_back, is_taken};
use amqp_values::{Value, ValueMap};
use std::alloc::Global;
use std::test::Fail;

fn are_made_of_numbers() -> bool {
    is(Value::default(), Value::Null)
        && is(Value::from(()), Value::Null)
        && is(Value::from(false), Value::Bool(false))
        && is(Value::from(1u8), Value::Ubyte(1))
        && is(Value::from(2u16), Value::Ushort(2))
        && is(Value::from(3u32), Value::Uint(3))
        && is(Value::from(4u64), Value::Ulong(4))
        && is(Value::from(-1i8), Value::Byte(-1))
        && is(Value::from(-2i16), Value::Short(-2))
        && is(Value::from(-3i32), Value::Int(-3))
        && is(Value::from(-4i64), Value::Long(-4))
        && is(Value::from('a'), Value::Char('a'))
}

#[test]
fn made_of_numbers(rt: HostRuntime) {
    assert!(rt; are_made_of_numbers());
}

fn are_made_of_bytes() -> bool {
    is(Value::from(Dec32([1; 4])), Value::Decimal32(Dec32([1; 4])))
        && is(Value::from(Dec64([2; 8])), Value::Decimal64(Dec64([2; 8])))
        && is(
            Value::from(Dec128([3; 16])),
            Value::Decimal128(Dec128([3; 16])),
        )
        && is(Value::from(Timestamp(-1)), Value::Timestamp(Timestamp(-1)))
        && is(Value::from(Uuid([4; 16])), Value::Uuid(Uuid([4; 16])))
}

fn binary(alloc: Global) -> Result<Binary, Error> {
    Ok(Binary(Vec::from_array(alloc, [5])?))
}

fn text(alloc: Global) -> Result<String, Error> {
    Ok(String::from_str(alloc, "t")?)
}

fn symbol(alloc: Global) -> Result<Symbol, Error> {
    Ok(Symbol::from_str_in("s", alloc)?)
}

fn are_made_of_texts(alloc: Global) -> Result<bool, Error> {
    Ok(
        are_equal(
            binary(alloc).map(Value::from),
            binary(alloc).map(Value::Binary),
        )? && are_equal(text(alloc).map(Value::from), text(alloc).map(Value::String))?
            && are_equal(
                symbol(alloc).map(Value::from),
                symbol(alloc).map(Value::Symbol),
            )?,
    )
}

#[test]
fn made_of_bytes_and_texts(rt: HostRuntime) -> Result<(), Fail> {
    assert!(rt; are_made_of_bytes());
    assert!(rt; are_made_of_texts(rt.alloc())?);
    Ok(())
}

fn are_numbers_taken() -> bool {
    is_taken(bool::try_from(Value::Bool(true)), true)
        && is_taken(u8::try_from(Value::Ubyte(1)), 1)
        && is_taken(u16::try_from(Value::Ushort(2)), 2)
        && is_taken(u32::try_from(Value::Uint(3)), 3)
        && is_taken(u64::try_from(Value::Ulong(4)), 4)
        && is_taken(i8::try_from(Value::Byte(-1)), -1)
        && is_taken(i16::try_from(Value::Short(-2)), -2)
        && is_taken(i32::try_from(Value::Int(-3)), -3)
        && is_taken(i64::try_from(Value::Long(-4)), -4)
        && is_taken(char::try_from(Value::Char('a')), 'a')
}

#[test]
fn numbers_taken_out(rt: HostRuntime) {
    assert!(rt; are_numbers_taken());
}

fn are_bytes_taken() -> bool {
    is_taken(
        Dec32::try_from(Value::Decimal32(Dec32([1; 4]))),
        Dec32([1; 4]),
    ) && is_taken(
        Dec64::try_from(Value::Decimal64(Dec64([2; 8]))),
        Dec64([2; 8]),
    ) && is_taken(
        Dec128::try_from(Value::Decimal128(Dec128([3; 16]))),
        Dec128([3; 16]),
    ) && is_taken(
        Timestamp::try_from(Value::Timestamp(Timestamp(-1))),
        Timestamp(-1),
    ) && is_taken(Uuid::try_from(Value::Uuid(Uuid([4; 16]))), Uuid([4; 16]))
}

fn are_texts_taken(alloc: Global) -> Result<bool, Error> {
    Ok(
        is_taken_of(binary(alloc).map(Value::Binary), binary(alloc))?
            && is_taken_of(text(alloc).map(Value::String), text(alloc))?
            && is_taken_of(symbol(alloc).map(Value::Symbol), symbol(alloc))?,
    )
}

#[test]
fn bytes_and_texts_taken_out(rt: HostRuntime) -> Result<(), Fail> {
    assert!(rt; are_bytes_taken());
    assert!(rt; are_texts_taken(rt.alloc())?);
    Ok(())
}

fn one_item(alloc: Global) -> Result<Vec<Value>, Error> {
    Ok(vec![in alloc; Value::Uint(7)]?)
}

fn array(alloc: Global) -> Result<Array<Value>, Error> {
    Ok(Array(one_item(alloc)?))
}

fn one_pair(alloc: Global) -> Result<ValueMap, Error> {
    let mut map = ValueMap::new(alloc);
    map.insert(Value::Uint(7), Value::Null)?;
    Ok(map)
}

fn are_holders_taken(alloc: Global) -> Result<bool, Error> {
    Ok(
        is_taken_of(one_item(alloc).map(Value::List), one_item(alloc))?
            && is_taken_of(array(alloc).map(Value::Array), array(alloc))?
            && is_taken_of(one_pair(alloc).map(Value::Map), one_pair(alloc))?,
    )
}

fn described() -> Described<Value> {
    Described {
        descriptor: Descriptor::Code(5),
        value: Value::Uint(7),
    }
}

fn is_described_taken(alloc: Global) -> Result<bool, Error> {
    let boxed = Value::Described(Box::new(alloc, described())?);
    match Box::<Described<Value>>::try_from(boxed) {
        Ok(taken) => Ok(is(Box::into_inner(taken), described())),
        Err(_) => Ok(false),
    }
}

#[test]
fn what_holds_others_taken_out(rt: HostRuntime) -> Result<(), Fail> {
    assert!(rt; are_holders_taken(rt.alloc())?);
    assert!(rt; is_described_taken(rt.alloc())?);
    Ok(())
}

fn are_others_kept(alloc: Global) -> Result<bool, Error> {
    Ok(
        is_kept::<Symbol, Value>(
            text(alloc).map(Value::String),
            text(alloc).map(Value::String),
        )? && is_kept::<ValueMap, Value>(
            one_item(alloc).map(Value::List),
            one_item(alloc).map(Value::List),
        )? && is_kept::<Vec<Value>, Value>(
            array(alloc).map(Value::Array),
            array(alloc).map(Value::Array),
        )?,
    )
}

#[test]
fn other_kinds_are_given_back(rt: HostRuntime) -> Result<(), Fail> {
    assert!(rt; is_given_back(u8::try_from(Value::Uint(7)), Value::Uint(7)));
    assert!(rt; is_given_back(i64::try_from(Value::Int(7)), Value::Int(7)));
    assert!(rt; are_others_kept(rt.alloc())?);
    Ok(())
}
