//! Promises that values of any kind are of their types: their numbers and texts are in the ranges of their kinds.
ghost use Rattle.std.specs.Prelude.{All};
ghost use Rattle.amqp_model.specs.Ranges.{IsInRange};
ghost use Rattle.amqp_model.specs.Spelling.{descriptor_value};
ghost use Rattle.amqp_lookahead.specs.Members.{descriptor_of};
ghost use Rattle.amqp_values.specs.declared.value.Value.{Map as MapOf};
ghost use Rattle.amqp_values.specs.Typing.{IsTyped, IsTypedPair};

use crate::{Value, ValueMap};
use amqp_codec::Serialize;
use amqp_wire::Descriptor;

// The number of a descriptor fits in eight bytes.
pub(crate) fn descriptor_typed(descriptor: &Descriptor)
    ensures { IsInRange (descriptor_value (descriptor_of descriptor.now)) }
{
    match descriptor {
        Descriptor::Name(_) => {}
        Descriptor::Code(code) => {
            let _code = *code;
        }
    }
}

// A value is of its type. It doesn't allocate.
#[cycle(typing)]
pub(crate) fn value_typed(value: &Value)
    ensures { IsTyped value.now }
{
    match value {
        Value::Null => {}
        Value::Bool(value) => value.in_type(),
        Value::Ubyte(value) => value.in_type(),
        Value::Ushort(value) => value.in_type(),
        Value::Uint(value) => value.in_type(),
        Value::Ulong(value) => value.in_type(),
        Value::Byte(value) => value.in_type(),
        Value::Short(value) => value.in_type(),
        Value::Int(value) => value.in_type(),
        Value::Long(value) => value.in_type(),
        Value::Decimal32(value) => value.in_type(),
        Value::Decimal64(value) => value.in_type(),
        Value::Decimal128(value) => value.in_type(),
        Value::Char(value) => value.in_type(),
        Value::Timestamp(value) => value.in_type(),
        Value::Uuid(value) => value.in_type(),
        Value::Binary(value) => value.in_type(),
        Value::String(value) => value.in_type(),
        Value::Symbol(value) => value.in_type(),
        Value::Described(value) => {
            descriptor_typed(&value.descriptor);
            value_typed(&value.value)
        }
        Value::List(values) => values_typed(values.as_slice()),
        Value::Map(map) => map_typed(map),
        Value::Array(values) => values_typed(values.0.as_slice()),
    }
}

// Values are of their types.
#[cycle(typing)]
fn values_typed(values: &[Value])
    ensures { All IsTyped values.now }
{
    for index in 0..values.len() {
        value_typed(&values[index]);
    }
}

// A map is of its type. It doesn't allocate.
#[cycle(typing)]
pub(crate) fn map_typed(map: &ValueMap)
    ensures { IsTyped (MapOf map.now) }
{
    pairs_typed(map.0.as_slice())
}

// Keys and values are of their types.
#[cycle(typing)]
fn pairs_typed(pairs: &[(Value, Value)])
    ensures { All IsTypedPair pairs.now }
{
    for index in 0..pairs.len() {
        let pair = &pairs[index];
        value_typed(&pair.0);
        value_typed(&pair.1);
    }
}
