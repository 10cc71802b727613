//! When two values of any kind are equal: if their terms are.
ghost use Rattle.std.specs.Prelude.{◌≡◌, map};
ghost use Rattle.amqp_model.specs.Spelling.{descriptor_value};
ghost use Rattle.amqp_model.specs.Items.{terms_of};
ghost use Rattle.amqp_lookahead.specs.Members.{descriptor_of};
ghost use Rattle.amqp_codec.specs.EqualKeys.{same_primitive, same_term, same_terms};
ghost use Rattle.amqp_values.specs.Values.{value_term};
ghost use Rattle.amqp_values.specs.Equality.{value_eq, map_eq, turn_terms};
ghost use Rattle.amqp_values.specs.laws.Equality.{values_per, values_equiv, maps_per, maps_equiv};

use crate::{Value, ValueMap};
use amqp_wire::Descriptor;

// Whether the descriptors are one.
fn same_descriptor(left: &Descriptor, right: &Descriptor) -> bool
    ensures { result ≡ same_primitive (descriptor_value (descriptor_of left.now)) (descriptor_value (descriptor_of right.now)) }
{
    match (left, right) {
        (Descriptor::Name(a), Descriptor::Name(b)) => a == b,
        (Descriptor::Code(a), Descriptor::Code(b)) => a == b,
        _ => false,
    }
}

// Whether the values are one.
#[cycle(equality)]
pub(crate) fn same_value(left: &Value, right: &Value) -> bool
    ensures { result ≡ same_term (value_term left.now) (value_term right.now) }
{
    match (left, right) {
        (Value::Null, Value::Null) => true,
        (Value::Bool(a), Value::Bool(b)) => a == b,
        (Value::Ubyte(a), Value::Ubyte(b)) => a == b,
        (Value::Ushort(a), Value::Ushort(b)) => a == b,
        (Value::Uint(a), Value::Uint(b)) => a == b,
        (Value::Ulong(a), Value::Ulong(b)) => a == b,
        (Value::Byte(a), Value::Byte(b)) => a == b,
        (Value::Short(a), Value::Short(b)) => a == b,
        (Value::Int(a), Value::Int(b)) => a == b,
        (Value::Long(a), Value::Long(b)) => a == b,
        (Value::Decimal32(a), Value::Decimal32(b)) => a == b,
        (Value::Decimal64(a), Value::Decimal64(b)) => a == b,
        (Value::Decimal128(a), Value::Decimal128(b)) => a == b,
        (Value::Char(a), Value::Char(b)) => a == b,
        (Value::Timestamp(a), Value::Timestamp(b)) => a == b,
        (Value::Uuid(a), Value::Uuid(b)) => a == b,
        (Value::Binary(a), Value::Binary(b)) => a == b,
        (Value::String(a), Value::String(b)) => a == b,
        (Value::Symbol(a), Value::Symbol(b)) => a == b,
        (Value::Described(a), Value::Described(b)) => {
            same_descriptor(&a.descriptor, &b.descriptor) && same_value(&a.value, &b.value)
        }
        (Value::List(a), Value::List(b)) => same_values(a.as_slice(), b.as_slice()),
        (Value::Map(a), Value::Map(b)) => same_pairs(a.0.as_slice(), b.0.as_slice()),
        (Value::Array(a), Value::Array(b)) => same_values(a.0.as_slice(), b.0.as_slice()),
        _ => false,
    }
}

// Whether the values are one by one the same.
#[cycle(equality)]
fn same_values(left: &[Value], right: &[Value]) -> bool
    ensures { result ≡ same_terms (terms_of (map value_term left.now)) (terms_of (map value_term right.now)) }
{
    if left.len() != right.len() {
        return false;
    }
    for index in 0..left.len() {
        if !same_value(&left[index], &right[index]) {
            return false;
        }
    }
    true
}

// Whether keys and values are one by one the same.
#[cycle(equality)]
fn same_pairs(left: &[(Value, Value)], right: &[(Value, Value)]) -> bool
    ensures { result ≡ same_terms (turn_terms left.now) (turn_terms right.now) }
{
    if left.len() != right.len() {
        return false;
    }
    for index in 0..left.len() {
        if !same_value(&left[index].0, &right[index].0)
            || !same_value(&left[index].1, &right[index].1)
        {
            return false;
        }
    }
    true
}

impl PartialEq for Value {
    ghost eq = { value_eq };

    ghost laws = { values_per };

    fn eq(&self, other: &Value) -> bool {
        same_value(self, other)
    }
}

impl Eq for Value {
    ghost laws = { values_equiv };
}

impl PartialEq for ValueMap {
    ghost eq = { map_eq };

    ghost laws = { maps_per };

    fn eq(&self, other: &ValueMap) -> bool {
        same_pairs(self.0.as_slice(), other.0.as_slice())
    }
}

impl Eq for ValueMap {
    ghost laws = { maps_equiv };
}
