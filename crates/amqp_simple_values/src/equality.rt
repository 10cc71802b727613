//! When two simple values are equal: if their terms are.
ghost use Rattle.amqp_simple_values.specs.Equality.{simple_eq, simple_per, simple_equiv};

use crate::SimpleValue;

impl PartialEq for SimpleValue {
    ghost eq = { simple_eq };

    ghost laws = { simple_per };

    fn eq(&self, other: &SimpleValue) -> bool {
        match (self, other) {
            (SimpleValue::Null, SimpleValue::Null) => true,
            (SimpleValue::Bool(a), SimpleValue::Bool(b)) => a == b,
            (SimpleValue::Ubyte(a), SimpleValue::Ubyte(b)) => a == b,
            (SimpleValue::Ushort(a), SimpleValue::Ushort(b)) => a == b,
            (SimpleValue::Uint(a), SimpleValue::Uint(b)) => a == b,
            (SimpleValue::Ulong(a), SimpleValue::Ulong(b)) => a == b,
            (SimpleValue::Byte(a), SimpleValue::Byte(b)) => a == b,
            (SimpleValue::Short(a), SimpleValue::Short(b)) => a == b,
            (SimpleValue::Int(a), SimpleValue::Int(b)) => a == b,
            (SimpleValue::Long(a), SimpleValue::Long(b)) => a == b,
            (SimpleValue::Decimal32(a), SimpleValue::Decimal32(b)) => a == b,
            (SimpleValue::Decimal64(a), SimpleValue::Decimal64(b)) => a == b,
            (SimpleValue::Decimal128(a), SimpleValue::Decimal128(b)) => a == b,
            (SimpleValue::Char(a), SimpleValue::Char(b)) => a == b,
            (SimpleValue::Timestamp(a), SimpleValue::Timestamp(b)) => a == b,
            (SimpleValue::Uuid(a), SimpleValue::Uuid(b)) => a == b,
            (SimpleValue::Binary(a), SimpleValue::Binary(b)) => a == b,
            (SimpleValue::String(a), SimpleValue::String(b)) => a == b,
            (SimpleValue::Symbol(a), SimpleValue::Symbol(b)) => a == b,
            (SimpleValue::Described(a), SimpleValue::Described(b)) => a == b,
            _ => false,
        }
    }
}

impl Eq for SimpleValue {
    ghost laws = { simple_equiv };
}
