//! `BTreeMap` as a map (Part 1, section 1.6.23): it is written in the order of its keys, and read from pairs in any order.
ghost use Rattle.std.specs.Prelude.{◌≡◌, true, Ok, refl, is_some};
ghost use Rattle.std.specs.BTreeMap.{get};
ghost use Rattle.std.specs.List.Sorted.{IsStrictlySortedBy};
ghost use Rattle.amqp_wire.specs.Sources.{Tells};
ghost use Rattle.amqp_decoder.specs.Places.{AnswersAt};
ghost use Rattle.amqp_decoder.specs.Steps.{Passes};
ghost use Rattle.amqp_encoder.specs.Passes.{answer_of};
ghost use Rattle.amqp_codec.specs.Agreement.{via_writing};
ghost use Rattle.amqp_codec.specs.Pairs.{OfPairs};
ghost use Rattle.amqp_codec.specs.MapReading.{PairsFault};
ghost use Rattle.amqp_codec.specs.MapWriting.{turn_terms, map_writing};
ghost use Rattle.amqp_codec.specs.Written.{WritesTerms};
ghost use Rattle.amqp_codec.specs.BTreeMapType.{btree_map_of};
ghost use Rattle.amqp_codec.specs.BTreeMaps.{ReadsInOrder, btree_map_agreement};

use crate::kernel::{pair_in_type, write_pair};
use crate::{DeserializeTerm, MapKey, Serialize, SerializeTerm};
use amqp_decoder::Decoder;
use amqp_encoder::{Encoder, Pass};
use amqp_wire::{ByteSource, Error};
use std::alloc::Global;
use std::collections::BTreeMap;

// Writes the pairs in the order of their keys, to an encoder that has refused nothing.
fn write_in_order<K: SerializeTerm + Ord, V: SerializeTerm, P: Pass>(
    map: &BTreeMap<K, V>,
    encoder: &mut Encoder<P>,
) -> Result<(), Error>
    requires going { answer_of encoder.now ≡ Ok tt }
    ensures { WritesTerms (turn_terms K.writing V.writing map.now.entries) encoder.old result encoder.new }
{
    for (key, value) in map {
        write_pair(key, value, encoder)?;
    }
    Ok(())
}

// Promises that keys and values are of their types.
fn entries_in_type<K: SerializeTerm + Ord, V: SerializeTerm>(entries: &BTreeMap<K, V>)
    ensures { OfPairs K.writing.is_value V.writing.is_value entries.now.entries }
{
    for (key, value) in entries {
        pair_in_type(key, value);
    }
}

impl<K: SerializeTerm + Ord, V: SerializeTerm> Serialize for BTreeMap<K, V> {
    ghost writing = { via_writing (λ m. m.entries) (map_writing K.writing V.writing (IsStrictlySortedBy K.cmp)) };

    fn serialize<P: Pass>(&self, encoder: &mut Encoder<P>) -> Result<(), Error> {
        encoder.begin_map()?;
        write_in_order(self, encoder)?;
        encoder.end_map()
    }

    fn in_type(&self) {
        entries_in_type(self);
        let _ordered = self.len();
    }
}

impl<K: SerializeTerm + Ord, V: SerializeTerm> SerializeTerm for BTreeMap<K, V> {
    fn is_null(&self) -> bool {
        false
    }

    ghost is_term = { λ m. refl };
}

// Whether a key is equal to one of the map's.
fn is_known<K: Ord, V>(map: &BTreeMap<K, V>, key: &K) -> bool
    ensures { result ≡ is_some (get K.cmp map.now key.now) }
{
    map.contains_key(key)
}

// Reads so many pairs, in any order. The count reserves nothing: memory is allocated as pairs come, and if that fails, the error is
// `Memory`. A key that is equal to one before it is `DuplicateKey`, before its value is read. Any other error is that of the first key or
// value that can't be read.
fn read_in_order<K: MapKey + Ord, V: DeserializeTerm, R: ByteSource>(
    count: u32,
    decoder: &mut Decoder<R>,
    alloc: Global,
) -> Result<BTreeMap<K, V>, Error>
    ensures read { Tells R.remaining → AnswersAt true (λ st map b. ReadsInOrder K.term V.term K.cmp count st map b)
        (PairsFault K.term V.term count) decoder.old result decoder.new }
    ensures tries { Passes true decoder.old result decoder.new }
{
    let mut map = BTreeMap::new(alloc);
    for _ in 0..count {
        let place = decoder.place();
        let key = K::read_value(decoder, alloc)?;
        if is_known(&map, &key) {
            return Err(decoder.refuse_at(place, Error::DuplicateKey));
        }
        let value = V::read_value(decoder, alloc)?;
        if map.insert(key, value).is_err() {
            return Err(decoder.refuse(Error::Memory));
        }
    }
    Ok(map)
}

impl<K: MapKey + Ord, V: DeserializeTerm> DeserializeTerm for BTreeMap<K, V> {
    ghost term = { btree_map_of K.term V.term K.cmp };

    // The count is of keys and values, and is even: if the map is begun, an odd one is `OddCount`.
    fn read_value<R: ByteSource>(
        decoder: &mut Decoder<R>,
        alloc: Global,
    ) -> Result<BTreeMap<K, V>, Error> {
        let count = decoder.begin_map()?;
        let map = read_in_order(count / 2, decoder, alloc)?;
        decoder.end_map()?;
        Ok(map)
    }

    ghost agreement = { btree_map_agreement K.agreement V.agreement K.is_key K.total K.matches_eq };
}
