//! The calls of bodies: which kind they are, and what they hold (Part 3, sections 3.2.6 to 3.2.8).
ghost use Rattle.std.specs.Prelude.{◌≡◌, Some, None, IfOk, IfErr, is_some, ok_or};
ghost use Rattle.amqp_bodies.specs.BodySections as sections;
ghost use Rattle.amqp_bodies.specs.Members.{body_value, body_data, body_sequences, data_left, sequences_left, data_lent, sequences_lent};

use crate::body::Body;
use crate::iterators::{DataIter, IntoData, IntoSequence, SequenceIter};
use amqp_sections::AmqpValue;

impl<T> Body<T> {
    /// Returns whether it is sections of data.
    pub fn is_data(&self) -> bool
        ensures { result ≡ is_some (body_data self.now) }
    {
        matches!(self, Body::Data(_))
    }

    /// Returns whether it is sequences.
    pub fn is_sequence(&self) -> bool
        ensures { result ≡ is_some (body_sequences self.now) }
    {
        matches!(self, Body::Sequence(_))
    }

    /// Returns whether it is one value.
    pub fn is_value(&self) -> bool
        ensures { result ≡ is_some (body_value self.now) }
    {
        matches!(self, Body::Value(_))
    }

    /// Returns whether the message has no body.
    pub fn is_empty(&self) -> bool
        ensures { result ≡ sections.is_empty self.now }
    {
        matches!(self, Body::Empty)
    }

    /// Returns the value that it is. A body of another kind is returned as the error.
    pub fn try_into_value(self) -> Result<T, Body<T>>
        ensures { result ≡ ok_or (body_value self) self }
    {
        match self {
            Body::Value(AmqpValue(value)) => Ok(value),
            other => Err(other),
        }
    }

    /// Returns an iterator over the bytes of its sections of data, in order. A body of another kind is returned as the error.
    pub fn try_into_data(self) -> Result<IntoData, Body<T>>
        ensures data { IfOk result (λ bytes. body_data self ≡ Some (data_left bytes)) }
        ensures other { IfErr result (λ body. (body ≡ self) × (body_data self ≡ None)) }
    {
        match self {
            Body::Data(batch) => Ok(IntoData(batch.into_iter())),
            other => Err(other),
        }
    }

    /// Returns an iterator over the lists of its sequences, in order. A body of another kind is returned as the error.
    pub fn try_into_sequence(self) -> Result<IntoSequence<T>, Body<T>>
    where
        T: Drop,
        ensures sequences { IfOk result (λ lists. body_sequences self ≡ Some (sequences_left lists)) }
        ensures other { IfErr result (λ body. (body ≡ self) × (body_sequences self ≡ None)) }
    {
        match self {
            Body::Sequence(batch) => Ok(IntoSequence(batch.into_iter())),
            other => Err(other),
        }
    }

    /// Returns the value that it is. A body of another kind is returned as the error.
    pub fn try_as_value(&self) -> Result<&T, &Body<T>>
        ensures value { IfOk result (λ value. body_value self.now ≡ Some value.now) }
        ensures other { IfErr result (λ body. (body.now ≡ self.now) × (body_value self.now ≡ None)) }
    {
        match self {
            Body::Value(value) => Ok(&value.0),
            other => Err(other),
        }
    }

    /// Returns an iterator over the bytes of its sections of data, in order. A body of another kind is returned as the error.
    pub fn try_as_data(&self) -> Result<DataIter<'_>, &Body<T>>
        ensures data { IfOk result (λ bytes. body_data self.now ≡ Some (data_lent bytes)) }
        ensures other { IfErr result (λ body. (body.now ≡ self.now) × (body_data self.now ≡ None)) }
    {
        match self {
            Body::Data(batch) => Ok(DataIter(batch.iter())),
            other => Err(other),
        }
    }

    /// Returns an iterator over the lists of its sequences, in order. A body of another kind is returned as the error.
    pub fn try_as_sequence(&self) -> Result<SequenceIter<'_, T>, &Body<T>>
        ensures sequences { IfOk result (λ lists. body_sequences self.now ≡ Some (sequences_lent lists)) }
        ensures other { IfErr result (λ body. (body.now ≡ self.now) × (body_sequences self.now ≡ None)) }
    {
        match self {
            Body::Sequence(batch) => Ok(SequenceIter(batch.iter())),
            other => Err(other),
        }
    }
}
