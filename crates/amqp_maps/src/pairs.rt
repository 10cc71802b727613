//! The pairs of a map: a few are in a row, and more are in a table.
ghost use Rattle.std.specs.Prelude.{◌≡◌, ◌<◌, ◌≤◌, ◌^◌, [], length, IsSome, IsOk, IfOk, OnOk, OnErr, IsTrue, position};
ghost use Rattle.std.specs.Cmp.Lexicographic.{pointwise};
ghost use Rattle.std.specs.List.{AllZip};
ghost use Rattle.std.specs.Map.{lookup, remove_entry};
ghost use Rattle.std.specs.Option.{option_copied};
ghost use Rattle.indexmap.specs.IndexMap.{insert_entry, spare};
ghost use Rattle.amqp_maps.specs.Pairs.{HaveDistinctKeys};

use crate::KeyHashing;
use crate::iterators::{IntoIter, Iter};
use indexmap::IndexMap;
use std::alloc::{AllocError, Global};
use std::hash::Hash;
use std::{fmt, mem};

// So many pairs are in a row at most.
pub(crate) const FEW: usize = 8;

#[derive(Drop)]
pub(crate) enum Pairs<K: Eq + Hash, V> {
    // At most `FEW` pairs, in which a key is found by a walk. If more come, their keys are hashed so.
    Row(Vec<(K, V)>, KeyHashing),
    // Any number of pairs, in which a key is found by its hash.
    Table(Box<IndexMap<K, V, KeyHashing>>),
}

// The place of the pair with the key.
#[inline(always)]
pub(crate) fn place_in<K: Eq, V>(row: &[(K, V)], key: &K) -> Option<usize>
    ensures { result ≡ position (λ p. K.eq key.now p.0) row.now }
{
    row.iter().position(|pair| *key == pair.0)
}

// Moves the pairs of a row into an empty table with room for them.
fn fill<K: Eq + Hash + Drop, V: Drop>(table: &mut IndexMap<K, V, KeyHashing>, row: Vec<(K, V)>)
    requires empty { table.old.entries ≡ [] }
    requires room { length row.items < spare table.old }
    requires distinct { HaveDistinctKeys K.eq row.items }
    ensures moved { table.new.entries ≡ row.items }
    ensures room_left { 0 < spare table.new }
{
    for (key, value) in row {
        let _none = table.insert(key, value).unwrap();
    }
}

// Moves the pairs of a row into a new table with room for more. If an allocation fails, the row is unchanged.
fn table_of<K: Eq + Hash + Drop, V: Drop>(
    row: &mut Vec<(K, V)>,
    hashing: KeyHashing,
) -> Result<Box<IndexMap<K, V, KeyHashing>>, AllocError>
    requires few { length row.old.items ≤ FEW }
    requires distinct { HaveDistinctKeys K.eq row.old.items }
    ensures moved { IfOk result (λ table. table.value.entries ≡ row.old.items) }
    ensures room { IfOk result (λ table. 0 < spare table.value) }
    ensures unchanged { OnErr result (row.new ≡ row.old) }
{
    let alloc = *row.allocator();
    let table = IndexMap::with_capacity_and_hasher(alloc, 2 * FEW, hashing)?;
    let mut table = Box::new(alloc, table)?;
    let moved = mem::replace(row, Vec::new(alloc));
    fill(&mut *table, moved);
    Ok(table)
}

// Whether the keys of two rows are equal, each to the one in its place.
fn have_equal_keys<K: Eq, V>(left: Iter<'_, K, V>, right: Iter<'_, K, V>) -> bool
    ensures { result ≡ pointwise (λ p q. K.eq p.0 q.0) left.entry right.entry }
{
    let mut left = left;
    let mut right = right;
    while let Some((key, _)) = left.next() {
        let Some((other, _)) = right.next() else {
            return false;
        };
        if *key != *other {
            return false;
        }
    }
    right.next().is_none()
}

impl<K: Eq + Hash, V> Pairs<K, V> {
    ghost use Rattle.amqp_maps.specs.Kept.{pairs_of, IsSound};

    // No pairs. It doesn't allocate.
    pub(crate) fn new(alloc: Global) -> Pairs<K, V>
        ensures empty { pairs_of result ≡ [] }
        ensures sound { IsSound K.eq result }
    {
        Pairs::Row(Vec::new(alloc), KeyHashing { seed: 0 })
    }

    // The pairs of a table, which is boxed.
    pub(crate) fn of_table(
        table: IndexMap<K, V, KeyHashing>,
        alloc: Global,
    ) -> Result<Pairs<K, V>, AllocError>
    where
        K: Drop,
        V: Drop,
        ensures pairs { IfOk result (λ pairs. pairs_of pairs ≡ table.entries) }
        ensures sound { IfOk result (IsSound K.eq) }
    {
        let _distinct = table.len();
        Ok(Pairs::Table(Box::new(alloc, table)?))
    }

    pub(crate) fn len(&self) -> usize
        ensures { result ≡ length (pairs_of self.now) }
    {
        match self {
            Pairs::Row(row, _) => row.len(),
            Pairs::Table(table) => table.len(),
        }
    }

    // The value of the key.
    pub(crate) fn get(&self, key: &K) -> Option<&V>
        ensures { option_copied result ≡ lookup (K.eq key.now) (pairs_of self.now) }
    {
        match self {
            Pairs::Row(row, _) => {
                let place = place_in(row.as_slice(), key)?;
                Some(&row[place].1)
            }
            Pairs::Table(table) => table.get(key),
        }
    }

    // The pairs in their order.
    #[inline]
    pub(crate) fn iter(&self) -> Iter<'_, K, V>
        ensures pairs { result ≡ pairs_of self.now }
        ensures fits { length (pairs_of self.now) < 2 ^ 63 }
    {
        match self {
            Pairs::Row(row, _) => Iter::of_row(row.as_slice()),
            Pairs::Table(table) => Iter::of_table(table.iter()),
        }
    }

    // Removes the pair of the key, and returns its value. The other pairs keep their order.
    pub(crate) fn shift_remove(&mut self, key: &K) -> Option<V>
    where
        K: Drop,
        ensures value { result ≡ lookup (K.eq key.now) (pairs_of self.old) }
        ensures removed { pairs_of self.new ≡ remove_entry (K.eq key.now) (pairs_of self.old) }
        ensures sound { IsSound K.eq self.old → IsSound K.eq self.new }
    {
        match self {
            Pairs::Row(row, _) => {
                let place = place_in(row.as_slice(), key)?;
                let (_, value) = row.remove(place);
                Some(value)
            }
            Pairs::Table(table) => table.shift_remove(key),
        }
    }
}

impl<K: Eq + Hash + Drop, V: Drop> Pairs<K, V> {
    ghost use Rattle.amqp_maps.specs.Kept.{pairs_of, IsSound};

    // Inserts a pair, as `OrderedMap::insert` does. If an allocation fails, nothing is changed.
    pub(crate) fn insert(&mut self, key: K, value: V) -> Result<Option<V>, AllocError>
        requires { IsSound K.eq self.old }
        ensures replaced { IfOk result (λ old. old ≡ lookup (K.eq key) (pairs_of self.old)) }
        ensures inserted { OnOk result (pairs_of self.new ≡ insert_entry K.eq (pairs_of self.old) key value) }
        ensures unchanged { OnErr result (pairs_of self.new ≡ pairs_of self.old) }
        ensures known { IsSome (lookup (K.eq key) (pairs_of self.old)) → IsOk result }
        ensures sound { IsSound K.eq self.new }
    {
        match self {
            Pairs::Table(table) => Ok(table.insert(key, value)?),
            Pairs::Row(row, hashing) => {
                if let Some(place) = place_in(row.as_slice(), &key) {
                    return Ok(Some(mem::replace(&mut row[place].1, value)));
                }
                if row.len() < FEW {
                    row.push((key, value))?;
                    return Ok(None);
                }
                let mut table = table_of(row, *hashing)?;
                let _none = table.insert(key, value).unwrap();
                *self = Pairs::Table(table);
                Ok(None)
            }
        }
    }

    // The pairs in their order, moved out.
    pub(crate) fn into_pairs(self) -> IntoIter<K, V>
        ensures pairs { result ≡ pairs_of self }
        ensures fits { length (pairs_of self) < 2 ^ 63 }
    {
        match self {
            Pairs::Row(row, _) => IntoIter::of_row(row),
            Pairs::Table(table) => IntoIter::of_table(Box::into_inner(table).into_iter()),
        }
    }
}

impl<K: Eq + Hash + Clone, V: Clone> Pairs<K, V> {
    ghost use Rattle.amqp_maps.specs.Kept.{pairs_of, IsSound};

    // Clones the pairs. It fails too if a key's clone isn't equal to the key, or if it has another hash in a table.
    pub(crate) fn copied(&self) -> Result<Pairs<K, V>, AllocError>
        requires { IsSound K.eq self.now }
        ensures copies { IfOk result (λ copy. AllZip (λ p q. K.is_clone p.0 q.0 × V.is_clone p.1 q.1) (pairs_of self.now) (pairs_of copy)) }
        ensures sound { IfOk result (IsSound K.eq) }
    {
        match self {
            Pairs::Row(row, hashing) => {
                let copy = row.clone()?;
                if !have_equal_keys(Iter::of_row(row.as_slice()), Iter::of_row(copy.as_slice())) {
                    return Err(AllocError);
                }
                Ok(Pairs::Row(copy, *hashing))
            }
            Pairs::Table(table) => {
                let copy = table.as_ref().clone()?;
                let _distinct = copy.len();
                Ok(Pairs::Table(Box::new(*Box::allocator(table), copy)?))
            }
        }
    }
}

impl<K: Eq + Hash + fmt::Debug, V: fmt::Debug> fmt::Debug for Pairs<K, V> {
    fn fmt<W: fmt::Write>(&self, f: &mut fmt::Formatter<W>) -> fmt::Result {
        let mut out = f.debug_map();
        for (key, value) in self.iter() {
            out.entry(key, value);
        }
        out.finish()
    }
}
