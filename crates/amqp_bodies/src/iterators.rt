//! Iterators over the sections of a body (Part 3, sections 3.2.6 and 3.2.7).
ghost use Rattle.std.specs.Iterator.{item_count, YieldsFirst, YieldsFirstRef};
ghost use Rattle.amqp_bodies.specs.Members.{data_left, sequences_left, data_lent, sequences_lent};

use amqp_primitives::Binary;
use amqp_sections::{AmqpSequence, Data};
use std::alloc::Global;
use std::slice::Iter;
use std::vec::IntoIter;

/// An iterator over the bytes of each section of data in order, which are moved out of a body.
#[derive(Drop)]
pub struct IntoData(pub(crate) IntoIter<Data, Global>);

impl Iterator for IntoData {
    type Item = Binary;

    ghost next_gives = { YieldsFirst data_left };

    ghost remaining = { item_count data_left };

    fn next(&mut self) -> Option<Binary> {
        let Data(bytes) = self.0.next()?;
        Some(bytes)
    }

    fn size_hint(&self) -> (usize, Option<usize>) {
        self.0.size_hint()
    }
}

/// An iterator over the list of each sequence in order, which are moved out of a body.
#[derive(Drop)]
pub struct IntoSequence<T>(pub(crate) IntoIter<AmqpSequence<T>, Global>);

impl<T: Drop> Iterator for IntoSequence<T> {
    type Item = Vec<T>;

    ghost next_gives = { YieldsFirst sequences_left };

    ghost remaining = { item_count sequences_left };

    fn next(&mut self) -> Option<Vec<T>> {
        let AmqpSequence(values) = self.0.next()?;
        Some(values)
    }

    fn size_hint(&self) -> (usize, Option<usize>) {
        self.0.size_hint()
    }
}

/// An iterator over the bytes of each section of data of a body, in order.
#[derive(Drop)]
pub struct DataIter<'a>(pub(crate) Iter<'a, Data>);

impl<'a> Iterator for DataIter<'a> {
    type Item = &'a Binary;

    ghost next_gives = { YieldsFirstRef data_lent };

    ghost remaining = { item_count data_lent };

    fn next(&mut self) -> Option<&'a Binary> {
        let data = self.0.next()?;
        Some(&data.0)
    }

    fn size_hint(&self) -> (usize, Option<usize>) {
        self.0.size_hint()
    }
}

/// An iterator over the list of each sequence of a body, in order.
#[derive(Drop)]
pub struct SequenceIter<'a, T>(pub(crate) Iter<'a, AmqpSequence<T>>);

impl<'a, T> Iterator for SequenceIter<'a, T> {
    type Item = &'a Vec<T>;

    ghost next_gives = { YieldsFirstRef sequences_lent };

    ghost remaining = { item_count sequences_lent };

    fn next(&mut self) -> Option<&'a Vec<T>> {
        let sequence = self.0.next()?;
        Some(&sequence.0)
    }

    fn size_hint(&self) -> (usize, Option<usize>) {
        self.0.size_hint()
    }
}
