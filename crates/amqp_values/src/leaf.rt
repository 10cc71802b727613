//! What values of any kind are without the values that they hold. They are ordered and hashed by it. It is for types that are ordered and
//! hashed as `Value` is.
ghost use Rattle.std.specs.Prelude.{◌≡◌};
ghost use Rattle.amqp_lookahead.specs.Members.{descriptor_of};
ghost use Rattle.amqp_values.specs.Values.{value_term};
ghost use Rattle.amqp_values.specs.Labels.{label, bare, with_number, with_integer, with_bytes, descriptor_label, label_of};

use crate::Value;
use amqp_wire::Descriptor;

/// A value without the values that it holds. It is ordered by its kind first.
#[derive(Clone, Copy, PartialEq, Eq, PartialOrd, Ord, Hash)]
pub struct Leaf<'a> {
    /// The place of its kind among the kinds.
    pub place: u8,
    /// Whether it is true, or its descriptor a code.
    pub truth: bool,
    /// Its number, if it has an unsigned one, and else zero.
    pub number: u64,
    /// Its number, if it has a signed one, and else zero.
    pub integer: i64,
    /// Its bytes, if it has some.
    pub bytes: &'a [u8],
}

/// Returns a leaf that its kind alone determines.
pub fn bare<'a>(place: u8) -> Leaf<'a>
    ensures { label result ≡ bare place }
{
    Leaf {
        place,
        truth: false,
        number: 0,
        integer: 0,
        bytes: &[],
    }
}

/// Returns a leaf that is an unsigned number.
pub fn with_number<'a>(place: u8, number: u64) -> Leaf<'a>
    ensures { label result ≡ with_number place number }
{
    Leaf {
        number,
        ..bare(place)
    }
}

/// Returns a leaf that is a signed number.
pub fn with_integer<'a>(place: u8, integer: i64) -> Leaf<'a>
    ensures { label result ≡ with_integer place integer }
{
    Leaf {
        integer,
        ..bare(place)
    }
}

/// Returns a leaf that is bytes.
pub fn with_bytes<'a>(place: u8, bytes: &'a [u8]) -> Leaf<'a>
    ensures { label result ≡ with_bytes place bytes.now }
{
    Leaf {
        bytes,
        ..bare(place)
    }
}

/// Returns the leaf of a described value: its descriptor. Names come before codes.
pub fn with_descriptor<'a>(place: u8, descriptor: &'a Descriptor) -> Leaf<'a>
    ensures { label result ≡ descriptor_label place (descriptor_of descriptor.now) }
{
    match descriptor {
        Descriptor::Name(name) => with_bytes(place, name.as_str().as_bytes()),
        Descriptor::Code(code) => Leaf {
            truth: true,
            ..with_number(place, *code)
        },
    }
}

/// Returns a value without the values that it holds.
pub fn leaf_of<'a>(value: &'a Value) -> Leaf<'a>
    ensures { label result ≡ label_of (value_term value.now) }
{
    match value {
        Value::Null => bare(0),
        Value::Bool(value) => Leaf {
            truth: *value,
            ..bare(1)
        },
        Value::Ubyte(value) => with_number(2, u64::from(*value)),
        Value::Ushort(value) => with_number(3, u64::from(*value)),
        Value::Uint(value) => with_number(4, u64::from(*value)),
        Value::Ulong(value) => with_number(5, *value),
        Value::Byte(value) => with_integer(6, i64::from(*value)),
        Value::Short(value) => with_integer(7, i64::from(*value)),
        Value::Int(value) => with_integer(8, i64::from(*value)),
        Value::Long(value) => with_integer(9, *value),
        Value::Decimal32(value) => with_bytes(10, value.as_slice()),
        Value::Decimal64(value) => with_bytes(11, value.as_slice()),
        Value::Decimal128(value) => with_bytes(12, value.as_slice()),
        Value::Char(value) => with_number(13, u64::from(*value)),
        Value::Timestamp(value) => with_integer(14, value.0),
        Value::Uuid(value) => with_bytes(15, value.as_slice()),
        Value::Binary(value) => with_bytes(16, value.as_slice()),
        Value::String(value) => with_bytes(17, value.as_bytes()),
        Value::Symbol(value) => with_bytes(18, value.as_str().as_bytes()),
        Value::Described(value) => with_descriptor(19, &value.descriptor),
        Value::List(_) => bare(20),
        Value::Map(_) => bare(21),
        Value::Array(_) => bare(22),
    }
}
