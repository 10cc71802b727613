//! The order of values of any kind: by their kinds, in the order of the variants, and within a kind by what they hold. Maps of such values
//! are ordered by their pairs.
ghost use Rattle.std.specs.Prelude.{◌≡◌, map, refl};
ghost use Rattle.std.specs.Ordering.{as_partial_cmp};
ghost use Rattle.amqp_model.specs.Items.{terms_of};
ghost use Rattle.amqp_values.specs.Values.{value_term};
ghost use Rattle.amqp_values.specs.Equality.{turn_terms};
ghost use Rattle.amqp_values.specs.Order.{value_cmp, terms_cmp, map_cmp};
ghost use Rattle.amqp_values.specs.laws.Order.{values_po, values_total, values_tied, maps_po, maps_total, maps_tied};

use crate::leaf::leaf_of;
use crate::{Value, ValueMap};
use std::cmp::Ordering;

// How a value compares to another: first without the values that they hold, and then by those.
#[cycle(order)]
fn compare_values(left: &Value, right: &Value) -> Ordering
    ensures { result ≡ value_cmp left.now right.now }
{
    match leaf_of(left).cmp(&leaf_of(right)) {
        Ordering::Less => return Ordering::Less,
        Ordering::Equal => {}
        Ordering::Greater => return Ordering::Greater,
    }
    match (left, right) {
        (Value::Described(a), Value::Described(b)) => compare_values(&a.value, &b.value),
        (Value::List(a), Value::List(b)) => compare_rows(a.as_slice(), b.as_slice()),
        (Value::Map(a), Value::Map(b)) => compare_pairs(a.0.as_slice(), b.0.as_slice()),
        (Value::Array(a), Value::Array(b)) => compare_rows(a.0.as_slice(), b.0.as_slice()),
        _ => Ordering::Equal,
    }
}

// How values compare to others: by the first that differ, and a row before a longer one that begins with it.
#[cycle(order)]
fn compare_rows(left: &[Value], right: &[Value]) -> Ordering
    ensures { result ≡ terms_cmp (terms_of (map value_term left.now)) (terms_of (map value_term right.now)) }
{
    for index in 0..left.len() {
        if index == right.len() {
            return Ordering::Greater;
        }
        match compare_values(&left[index], &right[index]) {
            Ordering::Equal => {}
            unequal => return unequal,
        }
    }
    if left.len() < right.len() {
        return Ordering::Less;
    }
    Ordering::Equal
}

// How keys and their values compare to others: by the first that differ, and a row before a longer one that begins with it.
#[cycle(order)]
fn compare_pairs(pairs: &[(Value, Value)], others: &[(Value, Value)]) -> Ordering
    ensures { result ≡ terms_cmp (turn_terms pairs.now) (turn_terms others.now) }
{
    for index in 0..pairs.len() {
        if index == others.len() {
            return Ordering::Greater;
        }
        match compare_values(&pairs[index].0, &others[index].0) {
            Ordering::Equal => {}
            unequal => return unequal,
        }
        match compare_values(&pairs[index].1, &others[index].1) {
            Ordering::Equal => {}
            unequal => return unequal,
        }
    }
    if pairs.len() < others.len() {
        return Ordering::Less;
    }
    Ordering::Equal
}

impl PartialOrd for Value {
    ghost partial_cmp = { as_partial_cmp value_cmp };

    ghost laws = { values_po };

    fn partial_cmp(&self, other: &Value) -> Option<Ordering> {
        Some(compare_values(self, other))
    }
}

impl Ord for Value {
    ghost cmp = { value_cmp };

    ghost total = { values_total };

    ghost matches_partial_cmp = { λ v w. refl };

    ghost matches_eq = { values_tied };

    fn cmp(&self, other: &Value) -> Ordering {
        compare_values(self, other)
    }
}

impl PartialOrd for ValueMap {
    ghost partial_cmp = { as_partial_cmp map_cmp };

    ghost laws = { maps_po };

    fn partial_cmp(&self, other: &ValueMap) -> Option<Ordering> {
        Some(compare_pairs(self.0.as_slice(), other.0.as_slice()))
    }
}

impl Ord for ValueMap {
    ghost cmp = { map_cmp };

    ghost total = { maps_total };

    ghost matches_partial_cmp = { λ m n. refl };

    ghost matches_eq = { maps_tied };

    fn cmp(&self, other: &ValueMap) -> Ordering {
        compare_pairs(self.0.as_slice(), other.0.as_slice())
    }
}
