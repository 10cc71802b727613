//! Bodies of any kind (Part 3, sections 3.2.6 to 3.2.8).
ghost use Rattle.std.specs.Prelude.{false, refl};
ghost use Rattle.amqp_codec.specs.Agreement.{agreement, writing_of};
ghost use Rattle.amqp_codec.specs.VecType.{vec_of, vec_agreement};
ghost use Rattle.amqp_primitives.specs.Types.{binary_type};
ghost use Rattle.amqp_sections.specs.SectionType.{section_of, section_agreement};
ghost use Rattle.amqp_sections.specs.Sections.{data_naming, in_data, sequence_naming, in_sequence};
ghost use Rattle.amqp_batches.specs.RepeatedSections.{data_section, sequence_section};
ghost use Rattle.amqp_bodies.specs.ReadsAs.{reads_itself};
ghost use Rattle.amqp_bodies.specs.BodyRewriting.{NoBodyFollows};
ghost use Rattle.amqp_bodies.specs.BodySections.{IsSome, empty_body, body_made, any_body_bound};
ghost use Rattle.amqp_codec.specs.TermReading.{reading_of};
ghost use Rattle.amqp_bodies.specs.BodyReading.{body_reading};
ghost use Rattle.amqp_bodies.specs.SeenReading.{seen_reading, seen_bound};
ghost use Rattle.amqp_bodies.specs.BodyWriting.{body_writing};
ghost use Rattle.amqp_bodies.specs.SpelledBodies.{IsBody};
ghost use Rattle.amqp_bodies.specs.SpelledFaults.{IsBodyFault};
ghost use Rattle.amqp_bodies.specs.SpelledReading.{any_body_is_read};
ghost use Rattle.amqp_bodies.specs.NamedFaults.{any_body_named};
ghost use Rattle.amqp_bodies.specs.EmptyBodies.{again_as_body, IsReadAsBody, IsNullKnown, null_body, any_body_rewrites, body_is_text};

use crate::traits::{
    BodySection, CanonicalBody, DeserializableBody, FromBody, FromEmptyBody, SerializableBody,
};
use amqp_batches::{Batch, no_section};
use amqp_codec::{Canonical, Deserialize, DeserializeTerm, Serialize, SerializeTerm};
use amqp_decoder::Decoder;
use amqp_encoder::{Encoder, Pass};
use amqp_sections::{AmqpSequence, AmqpValue, Data};
use amqp_wire::{ByteSource, Error, section_code};
use std::alloc::Global;

/// The body of a message, of any kind (Part 3, section 3.2). `clone` allocates; the clone is of the same kind, and holds a clone of what
/// the body holds.
#[derive(Clone, Debug, PartialEq, Eq, PartialOrd, Ord, Hash, Drop)]
pub enum Body<T> {
    /// One value.
    Value(AmqpValue<T>),
    /// Sections with bytes, one after another.
    Data(Batch<Data>),
    /// Sections with lists, one after another.
    Sequence(Batch<AmqpSequence<T>>),
    /// The message has no body. It is written as a null value.
    Empty,
}

impl<T: SerializeTerm> Serialize for Body<T> {
    ghost writing = { body_writing ⟦<AmqpValue<T> as Serialize>⟧.writing ⟦<Batch<Data> as Serialize>⟧.writing
        ⟦<Batch<AmqpSequence<T>> as Serialize>⟧.writing };

    fn serialize<P: Pass>(&self, encoder: &mut Encoder<P>) -> Result<(), Error> {
        match self {
            Body::Value(value) => value.serialize(encoder),
            Body::Data(batch) => batch.serialize(encoder),
            Body::Sequence(batch) => batch.serialize(encoder),
            Body::Empty => AmqpValue(()).serialize(encoder),
        }
    }

    fn in_type(&self) {
        match self {
            Body::Value(value) => value.in_type(),
            Body::Data(batch) => batch.in_type(),
            Body::Sequence(batch) => batch.in_type(),
            Body::Empty => {}
        }
    }
}

/// Reads one group of sections: one value, or the sections of data or of sequences that come one after another.
impl<T: DeserializeTerm> Deserialize for Body<T> {
    ghost reading = { seen_reading (body_reading (reading_of ⟦<AmqpValue<T> as DeserializeTerm>⟧.term)
        ⟦<Batch<Data> as Deserialize>⟧.reading ⟦<Batch<AmqpSequence<T>> as Deserialize>⟧.reading) };

    fn is_one_term() -> bool {
        false
    }

    fn deserialize<R: ByteSource>(
        decoder: &mut Decoder<R>,
        alloc: Global,
    ) -> Result<Body<T>, Error> {
        match decoder.peek_section()? {
            Some(code) => Body::read_group(code, decoder, alloc),
            None => Err(no_section(decoder, alloc)),
        }
    }
}

/// A body that is absent is read again as a null, where the type of the values tells what a null means.
impl<T: DeserializeTerm> Canonical for Body<T> {
    ghost follows = { NoBodyFollows };

    ghost again = { again_as_body T.term ⟦<Data as DeserializeTerm>⟧.term (section_of in_sequence sequence_naming (vec_of T.term))
        (null_body T.writing T.meant_by_null) };

    ghost kept = { IsSome };

    ghost lasts = { IsReadAsBody (IsNullKnown T.term T.writing T.meant_by_null) };

    ghost is_least = { false };

    ghost rewrites = { any_body_rewrites T.agreement (data_section in_data (writing_of binary_type refl))
        (section_agreement in_data data_naming (agreement binary_type refl)) (sequence_section in_sequence ⟦<Vec<T> as Serialize>⟧.writing)
        (section_agreement in_sequence sequence_naming (vec_agreement T.agreement)) T.meant_by_null };
}

impl<T> BodySection for Body<T> {}

impl<T: SerializeTerm> SerializableBody for Body<T> {}

impl<T: DeserializeTerm> DeserializableBody for Body<T> {
    ghost group = { ⟦<Body<T> as Deserialize>⟧.reading };

    ghost spells = { IsBody ⟦<AmqpValue<T> as DeserializeTerm>⟧.term ⟦<Data as DeserializeTerm>⟧.term ⟦<AmqpSequence<T> as DeserializeTerm>⟧.term };

    ghost faults = { IsBodyFault ⟦<Data as DeserializeTerm>⟧.term ⟦<AmqpSequence<T> as DeserializeTerm>⟧.term };

    fn read_group<R: ByteSource>(
        code: u8,
        decoder: &mut Decoder<R>,
        alloc: Global,
    ) -> Result<Body<T>, Error> {
        match code {
            section_code::DATA => Ok(Body::Data(Batch::read_group(code, decoder, alloc)?)),
            section_code::AMQP_SEQUENCE => Ok(Body::Sequence(Batch::read_group(
                code, decoder, alloc,
            )?)),
            section_code::AMQP_VALUE => Ok(Body::Value(AmqpValue::read_value(decoder, alloc)?)),
            _ => Err(decoder.refuse(Error::WrongDescriptor)),
        }
    }

    ghost is_read = { any_body_is_read ⟦<AmqpValue<T> as DeserializeTerm>⟧.term ⟦<Data as DeserializeTerm>⟧.term ⟦<AmqpSequence<T> as DeserializeTerm>⟧.term };

    ghost is_named = { any_body_named ⟦<AmqpValue<T> as DeserializeTerm>⟧.term ⟦<Data as DeserializeTerm>⟧.term ⟦<AmqpSequence<T> as DeserializeTerm>⟧.term };
}

/// Returns `Empty`.
impl<T> FromEmptyBody for Body<T> {
    ghost empties = { empty_body };

    fn from_empty_body(_alloc: Global) -> Result<Body<T>, Error> {
        Ok(Body::Empty)
    }
}

impl<T: DeserializeTerm> FromBody for Body<T> {
    type Body = Body<T>;

    ghost made = { body_made ⟦<Body<T> as Deserialize>⟧.reading (seen_bound _ (any_body_bound
        ⟦<AmqpValue<T> as DeserializeTerm>⟧.term ⟦<Data as DeserializeTerm>⟧.term ⟦<AmqpSequence<T> as DeserializeTerm>⟧.term)) };

    fn from_body(body: Body<T>, _alloc: Global) -> Result<Body<T>, Error> {
        Ok(body)
    }

    ghost group_is = { reads_itself _ };

    ghost empty_is = { λ v h. h };

    ghost is_empty = { λ v h. h };
}

impl<T: DeserializeTerm> CanonicalBody for Body<T> {
    ghost follows = { ⟦<Body<T> as Canonical>⟧.follows };

    ghost again = { ⟦<Body<T> as Canonical>⟧.again };

    ghost kept = { ⟦<Body<T> as Canonical>⟧.kept };

    ghost lasts = { ⟦<Body<T> as Canonical>⟧.lasts };

    ghost is_text = { body_is_text T.agreement (data_section in_data (writing_of binary_type refl))
        (section_agreement in_data data_naming (agreement binary_type refl)) (sequence_section in_sequence ⟦<Vec<T> as Serialize>⟧.writing)
        (section_agreement in_sequence sequence_naming (vec_agreement T.agreement)) T.meant_by_null };
}
