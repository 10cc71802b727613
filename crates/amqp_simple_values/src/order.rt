//! The order and the hash of simple values, which are those of the values that they are.
ghost use Rattle.std.specs.Prelude.{◌≡◌, refl};
ghost use Rattle.std.specs.Ordering.{as_partial_cmp};
ghost use Rattle.amqp_codec.specs.laws.Key.{key_of};
ghost use Rattle.amqp_values.specs.Labels.{label, label_of};
ghost use Rattle.amqp_simple_values.specs.Simple.{simple_term};
ghost use Rattle.amqp_simple_values.specs.Order.{simple_cmp, simple_po, simple_total, simple_tied};
ghost use Rattle.amqp_simple_values.specs.Order.{simple_fed, simple_alike, simple_decide};

use crate::SimpleValue;
use amqp_codec::MapKey;
use amqp_values::leaf::{Leaf, bare, with_bytes, with_descriptor, with_integer, with_number};
use std::cmp::Ordering;
use std::hash::{Hash, Hasher};

// A simple value without the value that it holds.
fn leaf_of<'a>(value: &'a SimpleValue) -> Leaf<'a>
    ensures { label result ≡ label_of (simple_term value.now) }
{
    match value {
        SimpleValue::Null => bare(0),
        SimpleValue::Bool(value) => Leaf {
            truth: *value,
            ..bare(1)
        },
        SimpleValue::Ubyte(value) => with_number(2, u64::from(*value)),
        SimpleValue::Ushort(value) => with_number(3, u64::from(*value)),
        SimpleValue::Uint(value) => with_number(4, u64::from(*value)),
        SimpleValue::Ulong(value) => with_number(5, *value),
        SimpleValue::Byte(value) => with_integer(6, i64::from(*value)),
        SimpleValue::Short(value) => with_integer(7, i64::from(*value)),
        SimpleValue::Int(value) => with_integer(8, i64::from(*value)),
        SimpleValue::Long(value) => with_integer(9, *value),
        SimpleValue::Decimal32(value) => with_bytes(10, value.as_slice()),
        SimpleValue::Decimal64(value) => with_bytes(11, value.as_slice()),
        SimpleValue::Decimal128(value) => with_bytes(12, value.as_slice()),
        SimpleValue::Char(value) => with_number(13, u64::from(*value)),
        SimpleValue::Timestamp(value) => with_integer(14, value.0),
        SimpleValue::Uuid(value) => with_bytes(15, value.as_slice()),
        SimpleValue::Binary(value) => with_bytes(16, value.as_slice()),
        SimpleValue::String(value) => with_bytes(17, value.as_bytes()),
        SimpleValue::Symbol(value) => with_bytes(18, value.as_str().as_bytes()),
        SimpleValue::Described(value) => with_descriptor(19, &value.descriptor),
    }
}

// How a simple value compares to another: first without the values that they hold, and then by those.
fn compare(left: &SimpleValue, right: &SimpleValue) -> Ordering
    ensures { result ≡ simple_cmp left.now right.now }
{
    match leaf_of(left).cmp(&leaf_of(right)) {
        Ordering::Less => return Ordering::Less,
        Ordering::Equal => {}
        Ordering::Greater => return Ordering::Greater,
    }
    match (left, right) {
        (SimpleValue::Described(a), SimpleValue::Described(b)) => a.value.cmp(&b.value),
        _ => Ordering::Equal,
    }
}

impl PartialOrd for SimpleValue {
    ghost partial_cmp = { as_partial_cmp simple_cmp };

    ghost laws = { simple_po };

    fn partial_cmp(&self, other: &SimpleValue) -> Option<Ordering> {
        Some(compare(self, other))
    }
}

impl Ord for SimpleValue {
    ghost cmp = { simple_cmp };

    ghost total = { simple_total };

    ghost matches_partial_cmp = { λ v w. refl };

    ghost matches_eq = { simple_tied };

    fn cmp(&self, other: &SimpleValue) -> Ordering {
        compare(self, other)
    }
}

impl Hash for SimpleValue {
    ghost hash_input = { simple_fed };

    ghost respects_eq = { simple_alike };

    fn hash<H: Hasher>(&self, state: &mut H) {
        leaf_of(self).hash(state);
        if let SimpleValue::Described(described) = self {
            described.value.hash(state);
        }
    }
}

impl MapKey for SimpleValue {
    ghost is_key = { key_of refl simple_decide };
}
