//! Copies of simple values, which are equal to what they were made of.
ghost use Rattle.std.specs.Prelude.{◌≡◌, IfOk};
ghost use Rattle.amqp_values.specs.declared.value.Value.{Described as DescribedOf};
ghost use Rattle.amqp_values.specs.Values.{value_term};
ghost use Rattle.amqp_simple_values.specs.Simple.{simple_term};

use crate::SimpleValue;
use amqp_described::Described;
use amqp_values::Value;
use std::alloc::AllocError;

// A copy of a value under its descriptor.
fn copy_described(value: &Box<Described<Value>>) -> Result<Box<Described<Value>>, AllocError>
    ensures { IfOk result (λ copy. value_term (DescribedOf copy) ≡ value_term (DescribedOf value.now)) }
{
    let copy = Described {
        descriptor: value.descriptor.clone()?,
        value: value.value.clone()?,
    };
    Ok(Box::new(*Box::allocator(value), copy)?)
}

impl Clone for SimpleValue {
    ghost is_clone = { λ v copy. simple_term copy ≡ simple_term v };

    fn clone(&self) -> Result<SimpleValue, AllocError> {
        match self {
            SimpleValue::Null => Ok(SimpleValue::Null),
            SimpleValue::Bool(own) => Ok(SimpleValue::Bool(*own)),
            SimpleValue::Ubyte(own) => Ok(SimpleValue::Ubyte(*own)),
            SimpleValue::Ushort(own) => Ok(SimpleValue::Ushort(*own)),
            SimpleValue::Uint(own) => Ok(SimpleValue::Uint(*own)),
            SimpleValue::Ulong(own) => Ok(SimpleValue::Ulong(*own)),
            SimpleValue::Byte(own) => Ok(SimpleValue::Byte(*own)),
            SimpleValue::Short(own) => Ok(SimpleValue::Short(*own)),
            SimpleValue::Int(own) => Ok(SimpleValue::Int(*own)),
            SimpleValue::Long(own) => Ok(SimpleValue::Long(*own)),
            SimpleValue::Decimal32(own) => Ok(SimpleValue::Decimal32(own.clone()?)),
            SimpleValue::Decimal64(own) => Ok(SimpleValue::Decimal64(own.clone()?)),
            SimpleValue::Decimal128(own) => Ok(SimpleValue::Decimal128(own.clone()?)),
            SimpleValue::Char(own) => Ok(SimpleValue::Char(*own)),
            SimpleValue::Timestamp(own) => Ok(SimpleValue::Timestamp(own.clone()?)),
            SimpleValue::Uuid(own) => Ok(SimpleValue::Uuid(own.clone()?)),
            SimpleValue::Binary(own) => Ok(SimpleValue::Binary(own.clone()?)),
            SimpleValue::String(own) => Ok(SimpleValue::String(own.clone()?)),
            SimpleValue::Symbol(own) => Ok(SimpleValue::Symbol(own.clone()?)),
            SimpleValue::Described(own) => Ok(SimpleValue::Described(copy_described(own)?)),
        }
    }
}
