//! Copies of values of any kind, which are equal to what they were made of.
ghost use Rattle.std.specs.Prelude.{◌≡◌, IfOk, map};
ghost use Rattle.amqp_values.specs.Equality.{turn_terms};
ghost use Rattle.amqp_values.specs.Copies.{described_term, terms_of_pair};
ghost use Rattle.amqp_values.specs.Values.{value_term, pairs_of};

use crate::{Value, ValueMap};
use amqp_containers::Array;
use amqp_described::Described;
use std::alloc::AllocError;

// A copy of a value.
#[cycle(copying)]
fn copy_value(value: &Value) -> Result<Value, AllocError>
    ensures { IfOk result (λ copy. value_term copy ≡ value_term value.now) }
{
    match value {
        Value::Null => Ok(Value::Null),
        Value::Bool(value) => Ok(Value::Bool(*value)),
        Value::Ubyte(value) => Ok(Value::Ubyte(*value)),
        Value::Ushort(value) => Ok(Value::Ushort(*value)),
        Value::Uint(value) => Ok(Value::Uint(*value)),
        Value::Ulong(value) => Ok(Value::Ulong(*value)),
        Value::Byte(value) => Ok(Value::Byte(*value)),
        Value::Short(value) => Ok(Value::Short(*value)),
        Value::Int(value) => Ok(Value::Int(*value)),
        Value::Long(value) => Ok(Value::Long(*value)),
        Value::Decimal32(value) => Ok(Value::Decimal32(value.clone()?)),
        Value::Decimal64(value) => Ok(Value::Decimal64(value.clone()?)),
        Value::Decimal128(value) => Ok(Value::Decimal128(value.clone()?)),
        Value::Char(value) => Ok(Value::Char(*value)),
        Value::Timestamp(value) => Ok(Value::Timestamp(value.clone()?)),
        Value::Uuid(value) => Ok(Value::Uuid(value.clone()?)),
        Value::Binary(value) => Ok(Value::Binary(value.clone()?)),
        Value::String(value) => Ok(Value::String(value.clone()?)),
        Value::Symbol(value) => Ok(Value::Symbol(value.clone()?)),
        Value::Described(value) => {
            let copy = copy_described(value)?;
            Ok(Value::Described(Box::new(*Box::allocator(value), copy)?))
        }
        Value::List(values) => Ok(Value::List(copy_values(values)?)),
        Value::Map(map) => Ok(Value::Map(ValueMap(copy_pairs(&map.0)?))),
        Value::Array(values) => Ok(Value::Array(Array(copy_values(&values.0)?))),
    }
}

// A copy of a descriptor and its value.
#[cycle(copying)]
fn copy_described(described: &Described<Value>) -> Result<Described<Value>, AllocError>
    ensures { IfOk result (λ copy. described_term copy ≡ described_term described.now) }
{
    Ok(Described {
        descriptor: described.descriptor.clone()?,
        value: copy_value(&described.value)?,
    })
}

// Copies of values, in their order.
#[cycle(copying)]
fn copy_values(values: &Vec<Value>) -> Result<Vec<Value>, AllocError>
    ensures { IfOk result (λ copies. map value_term copies.items ≡ map value_term values.now.items) }
{
    let mut copies = Vec::new(*values.allocator());
    for index in 0..values.len() {
        copies.push(copy_value(&values[index])?)?;
    }
    Ok(copies)
}

// Copies of keys and their values, in their order.
#[cycle(copying)]
fn copy_pairs(pairs: &Vec<(Value, Value)>) -> Result<Vec<(Value, Value)>, AllocError>
    ensures { IfOk result (λ copies. map terms_of_pair copies.items ≡ map terms_of_pair pairs.now.items) }
{
    let mut copies = Vec::new(*pairs.allocator());
    for index in 0..pairs.len() {
        let key = copy_value(&pairs[index].0)?;
        let value = copy_value(&pairs[index].1)?;
        copies.push((key, value))?;
    }
    Ok(copies)
}

impl Clone for Value {
    ghost is_clone = { λ v copy. value_term copy ≡ value_term v };

    fn clone(&self) -> Result<Value, AllocError> {
        copy_value(self)
    }
}

impl Clone for ValueMap {
    ghost is_clone = { λ m copy. turn_terms (pairs_of copy) ≡ turn_terms (pairs_of m) };

    fn clone(&self) -> Result<ValueMap, AllocError> {
        Ok(ValueMap(copy_pairs(&self.0)?))
    }
}
