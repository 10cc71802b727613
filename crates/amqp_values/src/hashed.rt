//! The hash of values of any kind and of maps of them: equal ones have one hash.
ghost use Rattle.std.specs.Prelude.{◌≡◌, map, refl};
ghost use Rattle.std.specs.List.{fold};
ghost use Rattle.amqp_model.specs.Items.{terms_of};
ghost use Rattle.amqp_codec.specs.laws.Key.{key_of};
ghost use Rattle.amqp_values.specs.Values.{value_term};
ghost use Rattle.amqp_values.specs.Equality.{turn_terms};
ghost use Rattle.amqp_values.specs.laws.Equality.{values_decide, maps_decide_values};
ghost use Rattle.amqp_values.specs.Hashed.{fed_term, fed_terms, value_fed, values_alike, map_fed, maps_alike};

use crate::leaf::leaf_of;
use crate::{Value, ValueMap};
use amqp_codec::MapKey;
use std::hash::{Hash, Hasher};

// What ends the values that another holds, and is the place of no kind.
const END: u8 = 0xff;

// Feeds a value: what it is but for the values that it holds, and then those.
#[cycle(hashing)]
fn hash_value<H: Hasher>(value: &Value, state: &mut H)
    ensures { state.new ≡ fold H.write state.old (fed_term (value_term value.now)) }
{
    leaf_of(value).hash(state);
    match value {
        Value::Described(value) => hash_value(&value.value, state),
        Value::List(values) => hash_row(values.as_slice(), state),
        Value::Map(map) => hash_pairs(map.0.as_slice(), state),
        Value::Array(values) => hash_row(values.0.as_slice(), state),
        _ => {}
    }
}

// Feeds values one after another, and then their end.
#[cycle(hashing)]
fn hash_row<H: Hasher>(values: &[Value], state: &mut H)
    ensures { state.new ≡ fold H.write state.old (fed_terms (terms_of (map value_term values.now))) }
{
    for index in 0..values.len() {
        hash_value(&values[index], state);
    }
    state.write_u8(END);
}

// Feeds keys and values in turn, and then their end.
#[cycle(hashing)]
fn hash_pairs<H: Hasher>(pairs: &[(Value, Value)], state: &mut H)
    ensures { state.new ≡ fold H.write state.old (fed_terms (turn_terms pairs.now)) }
{
    for index in 0..pairs.len() {
        hash_value(&pairs[index].0, state);
        hash_value(&pairs[index].1, state);
    }
    state.write_u8(END);
}

impl Hash for Value {
    ghost hash_input = { value_fed };

    ghost respects_eq = { values_alike };

    fn hash<H: Hasher>(&self, state: &mut H) {
        hash_value(self, state);
    }
}

impl MapKey for Value {
    ghost is_key = { key_of refl values_decide };
}

impl Hash for ValueMap {
    ghost hash_input = { map_fed };

    ghost respects_eq = { maps_alike };

    fn hash<H: Hasher>(&self, state: &mut H) {
        hash_pairs(self.0.as_slice(), state);
    }
}

impl MapKey for ValueMap {
    ghost is_key = { key_of refl maps_decide_values };
}
