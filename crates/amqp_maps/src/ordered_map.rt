//! `OrderedMap`, its calls, its clone and its iterators.
ghost use Rattle.std.specs.Prelude.{◌≡◌, ◌<◌, ◌^◌, ◌↔◌, [], length, IsTrue, IsSome, IsOk, IfOk, IfErr, OnOk, OnErr};
ghost use Rattle.std.specs.List.{AllZip};
ghost use Rattle.std.specs.Map.{lookup, remove_entry, values_of};
ghost use Rattle.std.specs.Map.Iter.{ShowsInOrder, ShowsInReverse, ShowsValuesInOrder, GivesInOrder, GivesInReverse, deref, deref_pair};
ghost use Rattle.std.specs.Option.{option_copied};
ghost use Rattle.indexmap.specs.IndexMap.{insert_entry};
ghost use Rattle.amqp_wire.specs.declared.error.Error.TheVariants.{Memory};
ghost use Rattle.amqp_maps.specs.Pairs.{HaveDistinctKeys};

use crate::iterators::{IntoIter, Iter, Values};
use crate::pairs::Pairs;
use amqp_wire::Error;
use std::alloc::{AllocError, Global};
use std::hash::Hash;
use std::marker::Model;

/// A map whose pairs are in the order in which their keys were first inserted. No two of its keys are equal.
///
/// Up to eight pairs are in a row, in which a key is found by a walk. More are in a table, in which a key is found by its hash.
///
/// Equality, order and hash are those of the list of its pairs; a pair goes by its key and then by its value. Two maps with the same pairs
/// in another order aren't equal, since in the standard the order of a map's pairs counts.
///
/// If keys and values can be read and written, so can the map (section 1.6.23), by its pairs in their order. A map with an odd number of
/// items is refused with `OddCount`. A map with two equal keys is refused with `DuplicateKey`, right after the second of them. The count
/// reserves no memory.
#[derive(Debug, Drop)]
pub struct OrderedMap<K: Eq + Hash, V> {
    pairs: Pairs<K, V>,
}

impl<K: Eq + Hash, V> Model for OrderedMap<K, V> {
    ghost use Rattle.std.specs.Prelude.{List};

    ghost Value = { List (K × V) };

    ghost use Rattle.amqp_maps.specs.Kept.{pairs_of, IsSound};

    ghost view = { λ m. pairs_of m.pairs };

    ghost invariant = { λ m. IsSound K.eq m.pairs };
}

impl<K: Eq + Hash, V> OrderedMap<K, V> {
    ghost use Rattle.amqp_maps.specs.Kept.{pairs_of, IsSound};

    /// Returns a map without pairs. It doesn't allocate.
    pub fn new(alloc: Global) -> OrderedMap<K, V>
        ensures { result ≡ [] }
    {
        OrderedMap {
            pairs: Pairs::new(alloc),
        }
    }

    // The map of these pairs.
    pub(crate) fn of_pairs(pairs: Pairs<K, V>) -> OrderedMap<K, V>
        requires { IsSound K.eq pairs }
        ensures { result ≡ pairs_of pairs }
    {
        OrderedMap { pairs }
    }

    /// Returns the value of `key`, if there is one.
    pub fn get(&self, key: &K) -> Option<&V>
        ensures { option_copied result ≡ lookup (K.eq key.now) self.now }
    {
        self.pairs.get(key)
    }

    /// Returns the number of pairs.
    pub fn len(&self) -> usize
        ensures length { result ≡ length self.now }
        ensures distinct { HaveDistinctKeys K.eq self.now }
    {
        self.pairs.len()
    }

    /// Returns whether there are no pairs.
    pub fn is_empty(&self) -> bool
        ensures { IsTrue result ↔ (self.now ≡ []) }
    {
        self.len() == 0
    }

    /// Returns an iterator over the pairs in order, each as a key and a value.
    pub fn iter(&self) -> Iter<'_, K, V>
        ensures pairs { result ≡ self.now }
        ensures in_order { ShowsInOrder (deref_pair {K = K} {X = V}) }
        ensures in_reverse { ShowsInReverse (deref_pair {K = K} {X = V}) }
        ensures distinct { HaveDistinctKeys K.eq self.now }
        ensures fits { length self.now < 2 ^ 63 }
    {
        self.pairs.iter()
    }

    /// Returns an iterator over the values, in the order of their keys.
    pub fn values(&self) -> Values<'_, K, V>
        ensures values { result ≡ values_of self.now }
        ensures in_order { ShowsInOrder (deref {X = V}) }
        ensures in_reverse { ShowsInReverse (deref {X = V}) }
        ensures fits { length self.now < 2 ^ 63 }
    {
        Values::of_pairs(self.iter())
    }
}

impl<K: Eq + Hash + Drop, V> OrderedMap<K, V> {
    /// Inserts a pair. A key in the map keeps its place, and its old value is replaced and returned. A new key goes last.
    ///
    /// # Errors
    ///
    /// `Memory`, if the key is new and an allocation fails: the map is unchanged, and the pair is dropped.
    pub fn insert(&mut self, key: K, value: V) -> Result<Option<V>, Error>
    where
        V: Drop,
        ensures replaced { IfOk result (λ old. old ≡ lookup (K.eq key) self.old) }
        ensures inserted { OnOk result (self.new ≡ insert_entry K.eq self.old key value) }
        ensures unchanged { OnErr result (self.new ≡ self.old) }
        ensures memory { IfErr result (λ e. e ≡ Memory) }
        ensures known { IsSome (lookup (K.eq key) self.old) → IsOk result }
    {
        Ok(self.pairs.insert(key, value)?)
    }

    /// Removes a key, and returns its value, if there is one. The other pairs keep their order.
    pub fn shift_remove(&mut self, key: &K) -> Option<V>
        ensures value { result ≡ lookup (K.eq key.now) self.old }
        ensures removed { self.new ≡ remove_entry (K.eq key.now) self.old }
    {
        self.pairs.shift_remove(key)
    }
}

impl<K: Eq + Hash + Clone, V: Clone> Clone for OrderedMap<K, V> {
    ghost is_clone = { AllZip (λ p q. K.is_clone p.0 q.0 × V.is_clone p.1 q.1) };

    // It allocates, and fails too if a key's clone isn't equal to the key, or has another hash in a table.
    fn clone(&self) -> Result<OrderedMap<K, V>, AllocError> {
        Ok(OrderedMap {
            pairs: self.pairs.copied()?,
        })
    }
}

impl<K: Eq + Hash + Drop, V: Drop> IntoIterator for OrderedMap<K, V> {
    type Item = (K, V);

    type IntoIter = IntoIter<K, V>;

    ghost into_iter_gives = { λ m r. (r ≡ m) × (length m < 2 ^ 63) × GivesInOrder (K × V) × GivesInReverse (K × V)
        × HaveDistinctKeys K.eq m };

    fn into_iter(self) -> IntoIter<K, V> {
        self.pairs.into_pairs()
    }
}

impl<'a, K: Eq + Hash, V> IntoIterator for &'a OrderedMap<K, V> {
    type Item = (&'a K, &'a V);

    type IntoIter = Iter<'a, K, V>;

    ghost into_iter_gives = { λ m r. (r ≡ m.now) × (length m.now < 2 ^ 63) × ShowsInOrder (deref_pair {K = K} {X = V})
        × HaveDistinctKeys K.eq m.now };

    fn into_iter(self) -> Iter<'a, K, V> {
        self.iter()
    }
}
