//! Bodies in which there may be nothing (Part 3, sections 3.2.6 to 3.2.8).
ghost use Rattle.std.specs.Prelude.{◌≡◌, [], None, IfOk, IfErr, MatchOption};
ghost use Rattle.std.specs.List.{AllZip, Any};
ghost use Rattle.amqp_wire.specs.declared.error.Error.TheVariants.{Memory};
ghost use Rattle.amqp_batches.specs.laws.Bound.{term_bound};
ghost use Rattle.amqp_batches.specs.Batches.{sections_in};
ghost use Rattle.amqp_batches.specs.SectionGroups.{group_bound};
ghost use Rattle.amqp_bodies.specs.ReadsAs.{reads_itself};
ghost use Rattle.amqp_bodies.specs.Bodies.{section_made};
ghost use Rattle.amqp_bodies.specs.BodySections.{any_body_bound};
ghost use Rattle.amqp_bodies.specs.SeenReading.{seen_bound};
ghost use Rattle.amqp_bodies.specs.Transposing.{optional, option_made, seen_stripped, run_stripped};
ghost use Rattle.amqp_bodies.specs.StrippedBodies.{HasNone, AreAll, value_stripped, sequence_stripped, batch_stripped};
ghost use Rattle.amqp_bodies.specs.StrippedBodies.{data_stripped, data_batch_stripped};
ghost use Rattle.amqp_bodies.specs.StrippedKinds.{body_stripped};

use crate::body::Body;
use crate::traits::{EmptyIsNothing, FromBody, FromEmptyBody, TransposeOption, ValueFromBody};
use amqp_batches::{Batch, TransparentVec};
use amqp_codec::{Deserialize, DeserializeTerm};
use amqp_sections::{AmqpSequence, AmqpValue, Data};
use amqp_wire::Error;
use std::alloc::Global;

// The items, or none if one of them is absent.
fn all_items<T: Drop>(items: Vec<Option<T>>, alloc: Global) -> Result<Option<Vec<T>>, Error>
    ensures items { IfOk result (λ found. MatchOption found (HasNone items.items) (λ values. AreAll items.items values.items)) }
    ensures memory { IfErr result (λ e. e ≡ Memory) }
{
    let mut values = Vec::new(alloc);
    for item in items {
        match item {
            Some(value) => {
                if values.push(value).is_err() {
                    return Err(Error::Memory);
                }
            }
            None => return Ok(None),
        }
    }
    Ok(Some(values))
}

// The sequences of a batch, or none if an item of one is absent.
fn all_sequences<T: Drop>(
    batch: Batch<AmqpSequence<Option<T>>>,
    alloc: Global,
) -> Result<Option<Batch<AmqpSequence<T>>>, Error>
    ensures sequences { IfOk result (λ found. MatchOption found (Any (λ f. HasNone f.0.items) (sections_in batch))
        (λ values. AllZip (λ f s. AreAll f.0.items s.0.items) (sections_in batch) (sections_in values))) }
    ensures memory { IfErr result (λ e. e ≡ Memory) }
{
    let mut sequences = Vec::new(alloc);
    for sequence in batch.into_inner() {
        match all_items(sequence.0, alloc)? {
            Some(items) => {
                if sequences.push(AmqpSequence(items)).is_err() {
                    return Err(Error::Memory);
                }
            }
            None => return Ok(None),
        }
    }
    Ok(Some(TransparentVec::new(sequences)))
}

/// A null is `None`.
impl<T: ValueFromBody> TransposeOption<T> for AmqpValue<T> {
    type From = Option<AmqpValue<Option<T>>>;

    ghost transposed = { option_made ⟦<T as FromBody>⟧.made
        (optional (value_stripped T.term) (term_bound ⟦<AmqpValue<Option<T>> as DeserializeTerm>⟧.term)) };

    fn transpose(src: Option<AmqpValue<Option<T>>>, alloc: Global) -> Result<Option<T>, Error> {
        match src {
            Some(AmqpValue(Some(value))) => Ok(Some(T::from_body(AmqpValue(value), alloc)?)),
            Some(AmqpValue(None)) | None => Ok(None),
        }
    }

    ghost from_is = { reads_itself _ };

    ghost none_is = { λ v h. h };

    ghost is_none = { λ v h. h };
}

/// A null is `None`.
impl<T: DeserializeTerm + FromEmptyBody> TransposeOption<AmqpValue<T>> for AmqpValue<T> {
    type From = Option<AmqpValue<Option<T>>>;

    ghost transposed = { option_made ⟦<AmqpValue<T> as FromBody>⟧.made
        (optional (value_stripped T.term) (term_bound ⟦<AmqpValue<Option<T>> as DeserializeTerm>⟧.term)) };

    fn transpose(
        src: Option<AmqpValue<Option<T>>>,
        _alloc: Global,
    ) -> Result<Option<AmqpValue<T>>, Error> {
        match src {
            Some(AmqpValue(Some(value))) => Ok(Some(AmqpValue(value))),
            Some(AmqpValue(None)) | None => Ok(None),
        }
    }

    ghost from_is = { reads_itself _ };

    ghost none_is = { λ v h. h };

    ghost is_none = { λ v h. h };
}

/// A sequence without items is `None`, and so is one with a null among them.
impl<T: DeserializeTerm> TransposeOption<AmqpSequence<T>> for AmqpSequence<T> {
    type From = Option<AmqpSequence<Option<T>>>;

    ghost transposed = { option_made ⟦<AmqpSequence<T> as FromBody>⟧.made
        (optional (sequence_stripped T.term) (term_bound ⟦<AmqpSequence<Option<T>> as DeserializeTerm>⟧.term)) };

    fn transpose(
        src: Option<AmqpSequence<Option<T>>>,
        alloc: Global,
    ) -> Result<Option<AmqpSequence<T>>, Error> {
        match src {
            Some(sequence) => match all_items(sequence.0, alloc)? {
                Some(items) => {
                    if items.is_empty() {
                        return Ok(None);
                    }
                    Ok(Some(AmqpSequence(items)))
                }
                None => Ok(None),
            },
            None => Ok(None),
        }
    }

    ghost from_is = { reads_itself _ };

    ghost none_is = { λ v h. h };

    ghost is_none = { λ v h. h };
}

/// A batch without sequences is `None`, and so is one with a null among the items of a sequence.
impl<T: DeserializeTerm> TransposeOption<TransparentVec<AmqpSequence<T>>>
    for TransparentVec<AmqpSequence<T>> {
    type From = Option<TransparentVec<AmqpSequence<Option<T>>>>;

    ghost transposed = { option_made ⟦<TransparentVec<AmqpSequence<T>> as FromBody>⟧.made
        (optional (seen_stripped (run_stripped 0x76 (batch_stripped T.term)))
        (seen_bound _ (group_bound 0x76 ⟦<AmqpSequence<Option<T>> as DeserializeTerm>⟧.term))) };

    fn transpose(
        src: Option<TransparentVec<AmqpSequence<Option<T>>>>,
        alloc: Global,
    ) -> Result<Option<TransparentVec<AmqpSequence<T>>>, Error> {
        match src {
            Some(batch) if !batch.is_empty() => all_sequences(batch, alloc),
            Some(_) | None => Ok(None),
        }
    }

    ghost from_is = { reads_itself _ };

    ghost none_is = { λ v h. h };

    ghost is_none = { λ v h. h };
}

/// Data without bytes is `None`.
impl EmptyIsNothing for Data {
    ghost optional = { option_made (section_made ⟦<Data as DeserializeTerm>⟧.term)
        (optional data_stripped (term_bound ⟦<Data as DeserializeTerm>⟧.term)) };

    fn unless_empty(self) -> Option<Data> {
        if self.0.0.is_empty() {
            return None;
        }
        Some(self)
    }

    ghost optional_is = { reads_itself _ };

    ghost of_none = { tt };

    ghost none_is = { λ v h. h };

    ghost is_none = { λ v h. h };
}

/// A batch without sections is `None`.
impl TransposeOption<TransparentVec<Data>> for TransparentVec<Data> {
    type From = Option<TransparentVec<Data>>;

    ghost transposed = { option_made ⟦<TransparentVec<Data> as FromBody>⟧.made
        (optional (seen_stripped (run_stripped 0x75 data_batch_stripped))
        (seen_bound _ (group_bound 0x75 ⟦<Data as DeserializeTerm>⟧.term))) };

    fn transpose(
        src: Option<TransparentVec<Data>>,
        alloc: Global,
    ) -> Result<Option<TransparentVec<Data>>, Error> {
        match src {
            Some(batch) if !batch.is_empty() => Ok(Some(batch)),
            Some(_) | None => Ok(None),
        }
    }

    ghost from_is = { reads_itself _ };

    ghost none_is = { λ v h. h };

    ghost is_none = { λ v h. h };
}

/// An empty body is `None`.
impl<T: EmptyIsNothing> TransposeOption<T> for T {
    type From = Option<T>;

    ghost transposed = { T.optional };

    fn transpose(src: Option<T>, _alloc: Global) -> Result<Option<T>, Error> {
        match src {
            Some(body) => Ok(body.unless_empty()),
            None => Ok(None),
        }
    }

    ghost from_is = { T.optional_is };

    ghost none_is = { T.none_is };

    ghost is_none = { T.is_none };
}

/// Each of these is `None`: a null, a batch without sections, a null among the items of a sequence, and no body.
impl<T: DeserializeTerm> TransposeOption<Body<T>> for Body<T> {
    type From = Body<Option<T>>;

    ghost transposed = { option_made ⟦<Body<T> as FromBody>⟧.made
        (record {
          group = ⟦<Body<Option<T>> as Deserialize>⟧.reading;
          bound = seen_bound _ (any_body_bound ⟦<AmqpValue<Option<T>> as DeserializeTerm>⟧.term
              ⟦<Data as DeserializeTerm>⟧.term ⟦<AmqpSequence<Option<T>> as DeserializeTerm>⟧.term);
          stripped = seen_stripped (body_stripped (value_stripped T.term) data_batch_stripped (batch_stripped T.term));
        }) };

    fn transpose(src: Body<Option<T>>, alloc: Global) -> Result<Option<Body<T>>, Error> {
        match src {
            Body::Value(AmqpValue(Some(value))) => Ok(Some(Body::Value(AmqpValue(value)))),
            Body::Data(batch) if !batch.is_empty() => Ok(Some(Body::Data(batch))),
            Body::Sequence(batch) if !batch.is_empty() => match all_sequences(batch, alloc)? {
                Some(sequences) => Ok(Some(Body::Sequence(sequences))),
                None => Ok(None),
            },
            _ => Ok(None),
        }
    }

    ghost from_is = { reads_itself _ };

    ghost none_is = { λ v h. h };

    ghost is_none = { λ v h. h };
}
