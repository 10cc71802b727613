//! The calls of maps of values of any kind. A key is found by a walk: the first equal key counts.
ghost use Rattle.std.specs.Prelude.{◌≡◌, ◌≤◌, ◌↔◌, ◌⊎◌, [], length, IsTrue, IsSome, IsOk, IfOk, IfErr, OnOk, OnErr, position};
ghost use Rattle.std.specs.Map.{lookup, remove_entry};
ghost use Rattle.std.specs.Option.{option_copied};
ghost use Rattle.indexmap.specs.IndexMap.{insert_entry};
ghost use Rattle.amqp_wire.specs.declared.error.Error.TheVariants.{Memory, DuplicateKey};
ghost use Rattle.amqp_values.specs.Equality.{value_eq};
ghost use Rattle.amqp_values.specs.Maps.{HaveDistinctKeys};
ghost use Rattle.amqp_values.specs.Values.{pairs_of};

use crate::equality::same_value;
use crate::keys::has_equal_keys;
use crate::{Value, ValueMap};
use amqp_wire::Error;
use std::alloc::Global;
use std::mem;

// The place of the first pair with the key.
fn place_of(key: &Value, pairs: &[(Value, Value)]) -> Option<usize>
    ensures { result ≡ position (λ p. value_eq key.now p.0) pairs.now }
{
    pairs.iter().position(|pair| same_value(key, &pair.0))
}

impl ValueMap {
    /// Returns a map without pairs. It doesn't allocate.
    pub fn new(alloc: Global) -> ValueMap
        ensures { pairs_of result ≡ [] }
    {
        ValueMap(Vec::new(alloc))
    }

    /// Returns the map of these pairs, in their order. Their keys are compared once, in a time that grows no faster than n log n. So for
    /// many pairs use this call, and not one `insert` after another.
    ///
    /// # Errors
    ///
    /// - `DuplicateKey`, if two pairs have equal keys.
    /// - `Memory`, if there are more than eight pairs, and an allocation to compare their keys fails.
    ///
    /// After an error the pairs are dropped.
    pub fn from_pairs(pairs: Vec<(Value, Value)>) -> Result<ValueMap, Error>
        ensures made { IfOk result (λ map. pairs_of map ≡ pairs.items) }
        ensures distinct { OnOk result (HaveDistinctKeys pairs.items) }
        ensures refused { IfErr result (λ e. (e ≡ Memory) ⊎ ((e ≡ DuplicateKey) × (HaveDistinctKeys pairs.items → ⊥))) }
        ensures few { length pairs.items ≤ 8 → IfErr result (λ e. e ≡ DuplicateKey) }
    {
        match has_equal_keys(pairs.as_slice(), *pairs.allocator()) {
            Ok(false) => Ok(ValueMap(pairs)),
            Ok(true) => Err(Error::DuplicateKey),
            Err(_) => Err(Error::Memory),
        }
    }

    /// Returns the value of `key`, if there is one: that of the first pair whose key is equal. It is found by a walk over the pairs. For
    /// many look-ups make an `OrderedMap<Value, Value>` of them.
    pub fn get(&self, key: &Value) -> Option<&Value>
        ensures { option_copied result ≡ lookup (value_eq key.now) (pairs_of self.now) }
    {
        let index = place_of(key, self.0.as_slice())?;
        Some(&self.0[index].1)
    }

    /// Returns the number of pairs.
    pub fn len(&self) -> usize
        ensures { result ≡ length (pairs_of self.now) }
    {
        self.0.len()
    }

    /// Returns whether there are no pairs.
    pub fn is_empty(&self) -> bool
        ensures { IsTrue result ↔ (pairs_of self.now ≡ []) }
    {
        self.0.is_empty()
    }

    /// Inserts a pair. A key in the map keeps its place, and its old value is replaced and returned. A new key goes last. The key is found
    /// by a walk over the pairs: for many pairs use `from_pairs`.
    ///
    /// # Errors
    ///
    /// `Memory`, if the key is new and an allocation fails: the map is unchanged, and the pair is dropped.
    pub fn insert(&mut self, key: Value, value: Value) -> Result<Option<Value>, Error>
        ensures replaced { IfOk result (λ old. old ≡ lookup (value_eq key) (pairs_of self.old)) }
        ensures inserted { OnOk result (pairs_of self.new ≡ insert_entry value_eq (pairs_of self.old) key value) }
        ensures unchanged { OnErr result (pairs_of self.new ≡ pairs_of self.old) }
        ensures memory { IfErr result (λ e. e ≡ Memory) }
        ensures known { IsSome (lookup (value_eq key) (pairs_of self.old)) → IsOk result }
        ensures distinct { HaveDistinctKeys (pairs_of self.old) → HaveDistinctKeys (pairs_of self.new) }
    {
        match place_of(&key, self.0.as_slice()) {
            Some(index) => Ok(Some(mem::replace(&mut self.0[index].1, value))),
            None => {
                if self.0.push((key, value)).is_err() {
                    return Err(Error::Memory);
                }
                Ok(None)
            }
        }
    }

    /// Removes the first pair with this key, and returns its value, if there is one. The other pairs keep their order.
    pub fn shift_remove(&mut self, key: &Value) -> Option<Value>
        ensures value { result ≡ lookup (value_eq key.now) (pairs_of self.old) }
        ensures removed { pairs_of self.new ≡ remove_entry (value_eq key.now) (pairs_of self.old) }
        ensures distinct { HaveDistinctKeys (pairs_of self.old) → HaveDistinctKeys (pairs_of self.new) }
    {
        let index = place_of(key, self.0.as_slice())?;
        let (_, value) = self.0.remove(index);
        Some(value)
    }

    /// Moves the pairs out of the map, in order, and returns them.
    pub fn into_inner(self) -> Vec<(Value, Value)>
        ensures { result.items ≡ pairs_of self }
    {
        let ValueMap(pairs) = self;
        pairs
    }
}
