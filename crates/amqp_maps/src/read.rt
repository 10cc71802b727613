//! Reading of maps: their pairs, one after another (Part 1, section 1.6.23).
ghost use Rattle.std.specs.Prelude.{◌≡◌, ◌<◌, ◌≤◌, ◌⊎◌, true, None, IsSome, OnOk, IfOk, IfErr, vec_len, vec_capacity};
ghost use Rattle.std.specs.Map.{lookup};
ghost use Rattle.indexmap.specs.IndexMap.{get, insert_entry};
ghost use Rattle.indexmap.specs.Entry.{entry_map_ref, map_with_value};
ghost use Rattle.indexmap.specs.declared.map.entry.Entry.TheVariants.{Vacant};
ghost use Rattle.amqp_wire.specs.declared.error.Error.TheVariants.{Memory, DuplicateKey};
ghost use Rattle.amqp_wire.specs.Sources.{Tells};
ghost use Rattle.amqp_decoder.specs.Places.{AnswersAt};
ghost use Rattle.amqp_decoder.specs.Steps.{Passes};
ghost use Rattle.amqp_codec.specs.MapReading.{ReadsPairsRow, PairsFault};
ghost use Rattle.amqp_codec.specs.laws.MapReading.{map_of, map_faults};
ghost use Rattle.amqp_codec.specs.MapWriting.{map_agreement};

use crate::pairs::{FEW, Pairs, place_in};
use crate::{KeyHashing, OrderedMap};
use amqp_codec::{DeserializeTerm, MapKey};
use amqp_decoder::Decoder;
use amqp_wire::{ByteSource, Error};
use indexmap::IndexMap;
use indexmap::map::{Entry, VacantEntry};
use std::alloc::Global;

// The place after the last pair, with room, for a key that none of them has. A key that one of them has is `DuplicateKey`, and a failed
// allocation of the room is `Memory`.
fn new_place<K: MapKey, V: DeserializeTerm>(
    pairs: &mut IndexMap<K, V, KeyHashing>,
    key: K,
) -> Result<VacantEntry<'_, K, V, KeyHashing>, Error>
    ensures same_pairs { IfOk result (λ place. (entry_map_ref (Vacant place)).ghost_name ≡ pairs.entry.ghost_name) }
    ensures last { IfOk result (λ place. (v : V) → (map_with_value (Vacant place) v).entries ≡ insert_entry K.eq pairs.old.entries key v) }
    ensures new { OnOk result (get K.eq pairs.old key ≡ None) }
    ensures refused { IfErr result (λ e. (e ≡ Memory) ⊎ ((e ≡ DuplicateKey) × IsSome (get K.eq pairs.old key))) }
{
    match pairs.entry(key) {
        Ok(Entry::Vacant(place)) => Ok(place),
        Ok(Entry::Occupied(_)) => Err(Error::DuplicateKey),
        Err(_) => Err(Error::Memory),
    }
}

// Makes room in a row for a pair of a key that none of its pairs has. A key that one of them has is `DuplicateKey`, and a failed allocation
// is `Memory`.
#[inline(always)]
fn make_room<K: MapKey, V>(row: &mut Vec<(K, V)>, key: &K) -> Result<(), Error>
    ensures same_pairs { row.new.items ≡ row.old.items }
    ensures room { OnOk result (vec_len row.new < vec_capacity row.new) }
    ensures new { OnOk result (lookup (K.eq key.now) row.old.items ≡ None) }
    ensures refused { IfErr result (λ e. (e ≡ Memory) ⊎ ((e ≡ DuplicateKey) × IsSome (lookup (K.eq key.now) row.old.items))) }
{
    if place_in(row.as_slice(), key).is_some() {
        return Err(Error::DuplicateKey);
    }
    if row.reserve(1).is_err() {
        return Err(Error::Memory);
    }
    Ok(())
}

// For how many of so many pairs memory may be reserved before they come: half as many as of their keys and values.
fn reservable_pairs<R: ByteSource>(count: u32, decoder: &mut Decoder<R>) -> usize
    ensures few { result ≤ count }
    ensures kept { decoder.new ≡ decoder.old }
{
    decoder.reservable_items(count.saturating_mul(2)) / 2
}

// Reads so many pairs, which are few, into a row. A key is compared with each before it, and isn't hashed.
fn read_row<K: MapKey, V: DeserializeTerm, R: ByteSource>(
    count: u32,
    decoder: &mut Decoder<R>,
    alloc: Global,
) -> Result<OrderedMap<K, V>, Error>
    requires { count ≤ FEW }
    ensures read { Tells R.remaining → AnswersAt true (λ st pairs b. ReadsPairsRow K.term V.term count st pairs b)
        (PairsFault K.term V.term count) decoder.old result decoder.new }
    ensures tries { Passes true decoder.old result decoder.new }
{
    let hashing = KeyHashing {
        seed: decoder.hash_seed(),
    };
    let reserved = reservable_pairs(count, decoder);
    let Ok(mut row) = Vec::with_capacity(alloc, reserved) else {
        return Err(decoder.refuse(Error::Memory));
    };
    for _ in 0..count {
        let start = decoder.place();
        let key = K::read_value(decoder, alloc)?;
        match make_room(&mut row, &key) {
            Ok(()) => {
                let value = V::read_value(decoder, alloc)?;
                row.push_reserved((key, value));
            }
            Err(error) => return Err(decoder.refuse_at(start, error)),
        }
    }
    Ok(OrderedMap::of_pairs(Pairs::Row(row, hashing)))
}

// Reads so many pairs, which aren't few, into a table. Each key is hashed once.
fn read_table<K: MapKey, V: DeserializeTerm, R: ByteSource>(
    count: u32,
    decoder: &mut Decoder<R>,
    alloc: Global,
) -> Result<OrderedMap<K, V>, Error>
    requires { FEW < count }
    ensures read { Tells R.remaining → AnswersAt true (λ st pairs b. ReadsPairsRow K.term V.term count st pairs b)
        (PairsFault K.term V.term count) decoder.old result decoder.new }
    ensures tries { Passes true decoder.old result decoder.new }
{
    let hashing = KeyHashing {
        seed: decoder.hash_seed(),
    };
    let reserved = reservable_pairs(count, decoder);
    let Ok(mut table) = IndexMap::with_capacity_and_hasher(alloc, reserved, hashing) else {
        return Err(decoder.refuse(Error::Memory));
    };
    for _ in 0..count {
        let start = decoder.place();
        let key = K::read_value(decoder, alloc)?;
        match new_place(&mut table, key) {
            Ok(place) => {
                let value = V::read_value(decoder, alloc)?;
                place.insert(value);
            }
            Err(error) => return Err(decoder.refuse_at(start, error)),
        }
    }
    match Pairs::of_table(table, alloc) {
        Ok(pairs) => Ok(OrderedMap::of_pairs(pairs)),
        Err(_) => Err(decoder.refuse(Error::Memory)),
    }
}

// Reads so many pairs one after another. Memory is reserved for as many as `reservable_pairs` says, and then allocated as keys come; if that
// fails, the error is `Memory`. A key that is equal to one before it is `DuplicateKey`, before its value is read. Any other error is that of
// the first key or value that can't be read.
fn read_pairs<K: MapKey, V: DeserializeTerm, R: ByteSource>(
    count: u32,
    decoder: &mut Decoder<R>,
    alloc: Global,
) -> Result<OrderedMap<K, V>, Error>
    ensures read { Tells R.remaining → AnswersAt true (λ st pairs b. ReadsPairsRow K.term V.term count st pairs b)
        (PairsFault K.term V.term count) decoder.old result decoder.new }
    ensures tries { Passes true decoder.old result decoder.new }
{
    if count as usize <= FEW {
        read_row(count, decoder, alloc)
    } else {
        read_table(count, decoder, alloc)
    }
}

impl<K: MapKey, V: DeserializeTerm> DeserializeTerm for OrderedMap<K, V> {
    ghost term = { map_of K.term V.term };

    // The count is of keys and values, and is even: an odd one is `OddCount` if the map is begun.
    fn read_value<R: ByteSource>(
        decoder: &mut Decoder<R>,
        alloc: Global,
    ) -> Result<OrderedMap<K, V>, Error> {
        let count = decoder.begin_map()?;
        let pairs = read_pairs(count / 2, decoder, alloc)?;
        decoder.end_map()?;
        Ok(pairs)
    }

    ghost agreement = { map_agreement K.agreement V.agreement K.is_key (map_faults K.term V.term) };
}
