//! How an `OrderedMap` is written: as a map of its pairs in their order (Part 1, section 1.6.23).
ghost use Rattle.std.specs.Prelude.{◌≡◌, Ok, refl};
ghost use Rattle.std.specs.List.{IsDistinct};
ghost use Rattle.amqp_encoder.specs.Passes.{answer_of};
ghost use Rattle.amqp_codec.specs.Pairs.{OfPairs};
ghost use Rattle.amqp_codec.specs.MapWriting.{turn_terms, map_writing};
ghost use Rattle.amqp_codec.specs.Written.{WritesTerms};

use crate::OrderedMap;
use amqp_codec::kernel::{pair_in_type, write_pair};
use amqp_codec::{Encoder, Error, Pass, Serialize, SerializeTerm};
use std::hash::Hash;

// Writes the pairs in order, to an encoder that has refused nothing.
fn write_pairs<K: SerializeTerm + Eq + Hash, V: SerializeTerm, P: Pass>(
    map: &OrderedMap<K, V>,
    encoder: &mut Encoder<P>,
) -> Result<(), Error>
    requires going { answer_of encoder.now ≡ Ok tt }
    ensures { WritesTerms (turn_terms K.writing V.writing map.now) encoder.old result encoder.new }
{
    for (key, value) in map {
        write_pair(key, value, encoder)?;
    }
    Ok(())
}

// Promises that keys and values are of their types.
fn pairs_in_type<K: SerializeTerm + Eq + Hash, V: SerializeTerm>(map: &OrderedMap<K, V>)
    ensures { OfPairs K.writing.is_value V.writing.is_value map.now }
{
    for (key, value) in map {
        pair_in_type(key, value);
    }
}

impl<K: SerializeTerm + Eq + Hash, V: SerializeTerm> Serialize for OrderedMap<K, V> {
    ghost writing = { map_writing K.writing V.writing (IsDistinct K.eq) };

    fn serialize<P: Pass>(&self, encoder: &mut Encoder<P>) -> Result<(), Error> {
        encoder.begin_map()?;
        write_pairs(self, encoder)?;
        encoder.end_map()
    }

    fn in_type(&self) {
        pairs_in_type(self);
        let _distinct = self.len();
    }
}

impl<K: SerializeTerm + Eq + Hash, V: SerializeTerm> SerializeTerm for OrderedMap<K, V> {
    fn is_null(&self) -> bool {
        false
    }

    ghost is_term = { λ v. refl };
}
