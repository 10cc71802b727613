//! A number that equal values share, by which keys are compared first. Values that differ may share it, too.
ghost use Rattle.std.specs.Prelude.{◌≡◌, map, take};
ghost use Rattle.std.specs.List.{fold};
ghost use Rattle.amqp_model.specs.Items.{terms_of};
ghost use Rattle.amqp_values.specs.Digests.{leaf_fed, leaves_fed, shallow_fed, value_digest};
ghost use Rattle.amqp_values.specs.Equality.{turn_terms};
ghost use Rattle.amqp_values.specs.Labels.{label};
ghost use Rattle.amqp_values.specs.Values.{value_term};

use crate::Value;
use crate::leaf::{Leaf, leaf_of};
use std::hash::{FoldHasher, Hasher};

// How many of the values that one holds are looked at, or pairs of a map.
const SEEN: usize = 32;

// Feeds the number and the bytes of a value that holds no others.
fn feed_leaf<'a, H: Hasher>(leaf: Leaf<'a>, state: &mut H)
    ensures { state.new ≡ fold H.write state.old (leaf_fed (label leaf.entry)) }
{
    state.write_u64(leaf.number);
    state.write_i64(leaf.integer);
    state.write(leaf.bytes);
}

// Feeds values without those that they hold.
fn feed_row<H: Hasher>(values: &[Value], state: &mut H)
    ensures { state.new ≡ fold H.write state.old (leaves_fed (terms_of (map value_term values.now))) }
{
    for index in 0..values.len() {
        feed_leaf(leaf_of(&values[index]), state);
    }
}

// Feeds keys and values in turn without those that they hold.
fn feed_pairs<H: Hasher>(pairs: &[(Value, Value)], state: &mut H)
    ensures { state.new ≡ fold H.write state.old (leaves_fed (turn_terms pairs.now)) }
{
    for index in 0..pairs.len() {
        feed_leaf(leaf_of(&pairs[index].0), state);
        feed_leaf(leaf_of(&pairs[index].1), state);
    }
}

// The first of the items, as far as they are looked at.
fn first_of<T>(items: &[T]) -> &[T]
    ensures { result.now ≡ take 32 items.now }
{
    &items[..items.len().min(SEEN)]
}

// Feeds a value: what it is but for the values that it holds, and the first of these without those that they hold.
fn feed_value<H: Hasher>(value: &Value, state: &mut H)
    ensures { state.new ≡ fold H.write state.old (shallow_fed (value_term value.now)) }
{
    feed_leaf(leaf_of(value), state);
    match value {
        Value::Described(value) => feed_leaf(leaf_of(&value.value), state),
        Value::List(values) => feed_row(first_of(values.as_slice()), state),
        Value::Map(map) => feed_pairs(first_of(map.0.as_slice()), state),
        Value::Array(values) => feed_row(first_of(values.0.as_slice()), state),
        _ => {}
    }
}

/// Returns the number.
pub(crate) fn digest_of(value: &Value) -> u64
    ensures { result ≡ value_digest value.now }
{
    let mut state = FoldHasher::default();
    feed_value(value, &mut state);
    state.finish()
}
