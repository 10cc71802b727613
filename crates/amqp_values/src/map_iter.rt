//! Iterators over the pairs of a map of values of any kind.
ghost use Rattle.std.specs.Prelude.{◌≡◌, ◌<◌, ◌^◌, length};
ghost use Rattle.std.specs.Iterator.{item_count, YieldsFirstBy, YieldsFirstRef, YieldsLastBy, YieldsLastRef};
ghost use Rattle.std.specs.Map.{values_of};
ghost use Rattle.std.specs.Map.Iter.{deref_pair};
ghost use Rattle.std.specs.Vec.Iter.{into_iter_items};
ghost use Rattle.amqp_values.specs.Values.{pairs_of};
ghost use Rattle.amqp_values.specs.Maps.{pairs_left, values_left};

use crate::{Value, ValueMap};
use std::alloc::Global;
use std::slice::Iter;
use std::vec::IntoIter;

/// An iterator over the pairs of a map in order, each as a key and a value.
#[derive(Drop)]
pub struct ValueMapIter<'a> {
    pairs: Iter<'a, (Value, Value)>,
}

impl<'a> Iterator for ValueMapIter<'a> {
    type Item = (&'a Value, &'a Value);

    ghost next_gives = { YieldsFirstBy deref_pair pairs_left };

    ghost remaining = { item_count pairs_left };

    fn next(&mut self) -> Option<(&'a Value, &'a Value)> {
        let pair = self.pairs.next()?;
        Some((&pair.0, &pair.1))
    }

    fn size_hint(&self) -> (usize, Option<usize>) {
        let len = self.len();
        (len, Some(len))
    }
}

impl<'a> DoubleEndedIterator for ValueMapIter<'a> {
    ghost next_back_gives = { YieldsLastBy deref_pair pairs_left };

    fn next_back(&mut self) -> Option<(&'a Value, &'a Value)> {
        let pair = self.pairs.next_back()?;
        Some((&pair.0, &pair.1))
    }
}

impl<'a> ExactSizeIterator for ValueMapIter<'a> {
    fn len(&self) -> usize {
        self.pairs.len()
    }
}

/// An iterator over the values of a map, in the order of its pairs.
#[derive(Drop)]
pub struct ValueMapValues<'a> {
    pairs: ValueMapIter<'a>,
}

impl<'a> Iterator for ValueMapValues<'a> {
    type Item = &'a Value;

    ghost next_gives = { YieldsFirstRef values_left };

    ghost remaining = { item_count values_left };

    fn next(&mut self) -> Option<&'a Value> {
        let (_, value) = self.pairs.next()?;
        Some(value)
    }

    fn size_hint(&self) -> (usize, Option<usize>) {
        let len = self.len();
        (len, Some(len))
    }
}

impl<'a> DoubleEndedIterator for ValueMapValues<'a> {
    ghost next_back_gives = { YieldsLastRef values_left };

    fn next_back(&mut self) -> Option<&'a Value> {
        let (_, value) = self.pairs.next_back()?;
        Some(value)
    }
}

impl<'a> ExactSizeIterator for ValueMapValues<'a> {
    fn len(&self) -> usize {
        self.pairs.len()
    }
}

impl ValueMap {
    /// Returns an iterator over the pairs in order, each as a key and a value.
    pub fn iter(&self) -> ValueMapIter<'_>
        ensures pairs { pairs_left result ≡ pairs_of self.now }
        ensures fits { length (pairs_of self.now) < 2 ^ 63 }
    {
        ValueMapIter {
            pairs: self.0.iter(),
        }
    }

    /// Returns an iterator over the values, in the order of their keys.
    pub fn values(&self) -> ValueMapValues<'_>
        ensures values { values_left result ≡ values_of (pairs_of self.now) }
        ensures fits { length (pairs_of self.now) < 2 ^ 63 }
    {
        ValueMapValues { pairs: self.iter() }
    }
}

impl IntoIterator for ValueMap {
    type Item = (Value, Value);

    type IntoIter = IntoIter<(Value, Value), Global>;

    ghost into_iter_gives = { λ m items. into_iter_items items ≡ pairs_of m };

    fn into_iter(self) -> IntoIter<(Value, Value), Global> {
        self.into_inner().into_iter()
    }
}

impl<'a> IntoIterator for &'a ValueMap {
    type Item = (&'a Value, &'a Value);

    type IntoIter = ValueMapIter<'a>;

    ghost into_iter_gives = { λ m items. (pairs_left items ≡ pairs_of m.now) × (length (pairs_of m.now) < 2 ^ 63) };

    fn into_iter(self) -> ValueMapIter<'a> {
        self.iter()
    }
}
