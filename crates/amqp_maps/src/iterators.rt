//! The iterators over the pairs of a map. Each is seen as the list of what it has left.
ghost use Rattle.std.specs.Prelude.{◌≡◌, length, ⊤};
ghost use Rattle.std.specs.Iterator.{at_most};
ghost use Rattle.std.specs.Map.{values_of};
ghost use Rattle.std.specs.Map.Iter.{TakesFirst, TakesLast, deref, deref_pair};

use indexmap::map;
use std::alloc::AllocError;
use std::iter::FusedIterator;
use std::marker::Model;
use std::{fmt, slice, vec};

/// An iterator over the pairs of a map in order, each as a key and a value.
#[derive(Drop)]
pub struct Iter<'a, K, V> {
    rest: Lent<'a, K, V>,
}

// What is left of a row, or of a table.
#[derive(Drop)]
enum Lent<'a, K, V> {
    Row(slice::Iter<'a, (K, V)>),
    Table(map::Iter<'a, K, V>),
}

impl<'a, K, V> Model for Iter<'a, K, V> {
    ghost use Rattle.std.specs.Prelude.{List};

    ghost Value = { List (K × V) };

    ghost use Rattle.amqp_maps.specs.Left.{lent_pairs};

    ghost view = { λ a. lent_pairs a.rest };
}

impl<'a, K, V> Iter<'a, K, V> {
    #[inline(always)]
    pub(crate) fn of_row(row: &'a [(K, V)]) -> Iter<'a, K, V>
        ensures { result ≡ row.now }
    {
        Iter {
            rest: Lent::Row(row.iter()),
        }
    }

    #[inline(always)]
    pub(crate) fn of_table(rest: map::Iter<'a, K, V>) -> Iter<'a, K, V>
        ensures { result ≡ rest.entry }
    {
        Iter {
            rest: Lent::Table(rest),
        }
    }
}

impl<'a, K, V> Iterator for Iter<'a, K, V> {
    type Item = (&'a K, &'a V);

    ghost next_gives = { TakesFirst deref_pair };

    ghost remaining = { λ s. at_most (length s) };

    #[inline(always)]
    fn next(&mut self) -> Option<(&'a K, &'a V)> {
        match &mut self.rest {
            Lent::Row(row) => {
                let pair = row.next()?;
                Some((&pair.0, &pair.1))
            }
            Lent::Table(table) => table.next(),
        }
    }

    fn size_hint(&self) -> (usize, Option<usize>) {
        let len = self.len();
        (len, Some(len))
    }
}

impl<'a, K, V> DoubleEndedIterator for Iter<'a, K, V> {
    ghost next_back_gives = { TakesLast deref_pair };

    fn next_back(&mut self) -> Option<(&'a K, &'a V)> {
        match &mut self.rest {
            Lent::Row(row) => {
                let pair = row.next_back()?;
                Some((&pair.0, &pair.1))
            }
            Lent::Table(table) => table.next_back(),
        }
    }
}

impl<'a, K, V> ExactSizeIterator for Iter<'a, K, V> {
    fn len(&self) -> usize {
        match &self.rest {
            Lent::Row(row) => row.len(),
            Lent::Table(table) => table.len(),
        }
    }
}

impl<'a, K, V> FusedIterator for Iter<'a, K, V> {}

impl<'a, K, V> Clone for Iter<'a, K, V> {
    ghost is_clone = { λ s r. r ≡ s };

    ghost is_infallible = { λ _. ⊤ };

    fn clone(&self) -> Result<Iter<'a, K, V>, AllocError> {
        match &self.rest {
            Lent::Row(row) => Ok(Iter {
                rest: Lent::Row(row.clone()?),
            }),
            Lent::Table(table) => Ok(Iter {
                rest: Lent::Table(table.clone()?),
            }),
        }
    }
}

impl<'a, K: fmt::Debug, V: fmt::Debug> fmt::Debug for Iter<'a, K, V> {
    fn fmt<W: fmt::Write>(&self, f: &mut fmt::Formatter<W>) -> fmt::Result {
        f.debug_list().entries(self.clone().unwrap()).finish()
    }
}

/// An iterator over the values of a map, in the order of their keys.
#[derive(Drop)]
pub struct Values<'a, K, V> {
    pairs: Iter<'a, K, V>,
}

impl<'a, K, V> Model for Values<'a, K, V> {
    ghost use Rattle.std.specs.Prelude.{List};
    ghost use Rattle.std.specs.Map.{values_of};

    ghost Value = { List V };

    ghost view = { λ a. values_of a.pairs };
}

impl<'a, K, V> Values<'a, K, V> {
    #[inline(always)]
    pub(crate) fn of_pairs(pairs: Iter<'a, K, V>) -> Values<'a, K, V>
        ensures { result ≡ values_of pairs.entry }
    {
        Values { pairs }
    }
}

impl<'a, K, V> Iterator for Values<'a, K, V> {
    type Item = &'a V;

    ghost next_gives = { TakesFirst deref };

    ghost remaining = { λ s. at_most (length s) };

    #[inline(always)]
    fn next(&mut self) -> Option<&'a V> {
        let (_, value) = self.pairs.next()?;
        Some(value)
    }

    fn size_hint(&self) -> (usize, Option<usize>) {
        let len = self.len();
        (len, Some(len))
    }
}

impl<'a, K, V> DoubleEndedIterator for Values<'a, K, V> {
    ghost next_back_gives = { TakesLast deref };

    fn next_back(&mut self) -> Option<&'a V> {
        let (_, value) = self.pairs.next_back()?;
        Some(value)
    }
}

impl<'a, K, V> ExactSizeIterator for Values<'a, K, V> {
    fn len(&self) -> usize {
        self.pairs.len()
    }
}

impl<'a, K, V> FusedIterator for Values<'a, K, V> {}

impl<'a, K, V> Clone for Values<'a, K, V> {
    ghost is_clone = { λ s r. r ≡ s };

    ghost is_infallible = { λ _. ⊤ };

    fn clone(&self) -> Result<Values<'a, K, V>, AllocError> {
        Ok(Values {
            pairs: self.pairs.clone()?,
        })
    }
}

impl<'a, K, V: fmt::Debug> fmt::Debug for Values<'a, K, V> {
    fn fmt<W: fmt::Write>(&self, f: &mut fmt::Formatter<W>) -> fmt::Result {
        f.debug_list().entries(self.clone().unwrap()).finish()
    }
}

/// An iterator that moves the pairs out of a map, in order.
#[derive(Drop)]
pub struct IntoIter<K, V> {
    rest: Owned<K, V>,
}

// What is left of a row, or of a table.
#[derive(Drop)]
enum Owned<K, V> {
    Row(vec::IntoIter<(K, V)>),
    Table(map::IntoIter<K, V>),
}

impl<K, V> Model for IntoIter<K, V> {
    ghost use Rattle.std.specs.Prelude.{List};

    ghost Value = { List (K × V) };

    ghost use Rattle.amqp_maps.specs.Left.{owned_pairs};

    ghost view = { λ a. owned_pairs a.rest };
}

impl<K, V> IntoIter<K, V> {
    #[inline(always)]
    pub(crate) fn of_row(row: Vec<(K, V)>) -> IntoIter<K, V>
        ensures { result ≡ row.items }
    {
        IntoIter {
            rest: Owned::Row(row.into_iter()),
        }
    }

    #[inline(always)]
    pub(crate) fn of_table(rest: map::IntoIter<K, V>) -> IntoIter<K, V>
        ensures { result ≡ rest }
    {
        IntoIter {
            rest: Owned::Table(rest),
        }
    }
}

impl<K: Drop, V: Drop> Iterator for IntoIter<K, V> {
    type Item = (K, V);

    ghost next_gives = { TakesFirst (λ p. p) };

    ghost remaining = { λ s. at_most (length s) };

    #[inline(always)]
    fn next(&mut self) -> Option<(K, V)> {
        match &mut self.rest {
            Owned::Row(row) => row.next(),
            Owned::Table(table) => table.next(),
        }
    }

    fn size_hint(&self) -> (usize, Option<usize>) {
        let len = self.len();
        (len, Some(len))
    }
}

impl<K: Drop, V: Drop> DoubleEndedIterator for IntoIter<K, V> {
    ghost next_back_gives = { TakesLast (λ p. p) };

    fn next_back(&mut self) -> Option<(K, V)> {
        match &mut self.rest {
            Owned::Row(row) => row.next_back(),
            Owned::Table(table) => table.next_back(),
        }
    }
}

impl<K: Drop, V: Drop> ExactSizeIterator for IntoIter<K, V> {
    fn len(&self) -> usize {
        match &self.rest {
            Owned::Row(row) => row.len(),
            Owned::Table(table) => table.len(),
        }
    }
}

impl<K: Drop, V: Drop> FusedIterator for IntoIter<K, V> {}
