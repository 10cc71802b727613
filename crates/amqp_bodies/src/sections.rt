//! The sections of a body, and batches of them, as bodies (Part 3, section 3.2).
ghost use Rattle.std.proofs.Common.{inl, inr};
ghost use Rattle.std.specs.Prelude.{◌≡◌, [], refl};
ghost use Rattle.amqp_model.specs.FieldType.{normal};
ghost use Rattle.amqp_lookahead.specs.Sections.{IsSectionAhead};
ghost use Rattle.amqp_codec.specs.Agreement.{agreement, writing_of};
ghost use Rattle.amqp_codec.specs.VecType.{vec_agreement};
ghost use Rattle.amqp_primitives.specs.Types.{binary_type};
ghost use Rattle.amqp_sections.specs.SectionType.{section_agreement};
ghost use Rattle.amqp_sections.specs.Sections.{data_naming, in_data, sequence_naming, in_sequence};
ghost use Rattle.amqp_batches.specs.Batches.{sections_in, batch_again};
ghost use Rattle.amqp_batches.specs.RepeatedSections.{data_section, sequence_section};
ghost use Rattle.amqp_bodies.specs.ReadsAs.{reads_itself};
ghost use Rattle.amqp_bodies.specs.BodyTexts.{section_is_text, batch_is_text};
ghost use Rattle.amqp_bodies.specs.NullBodies.{value_is_text};
ghost use Rattle.amqp_codec.specs.TermReading.{reading_of};
ghost use Rattle.amqp_batches.specs.SectionGroups.{run_reading, group_bound};
ghost use Rattle.amqp_bodies.specs.Bodies.{itself, section_made, no_value};
ghost use Rattle.amqp_bodies.specs.BodySections.{value_made};
ghost use Rattle.amqp_bodies.specs.SeenReading.{seen_reading, seen_bound};
ghost use Rattle.amqp_batches.specs.Spellings.{IsTerm, IsSection, IsBatch};
ghost use Rattle.amqp_batches.specs.SpellingFaults.{IsNoTerm, IsRunFault, IsSectionFault};
ghost use Rattle.amqp_batches.specs.laws.ReadAs.{term_is_read};
ghost use Rattle.amqp_batches.specs.laws.SpelledGroups.{batch_is_read, section_is_read};
ghost use Rattle.amqp_batches.specs.laws.NamedAs.{term_named, batch_named, section_named};
ghost use Rattle.amqp_bodies.specs.SpelledReading.{seen_is_read};
ghost use Rattle.amqp_bodies.specs.NamedFaults.{seen_named};

use crate::traits::{
    BodySection, CanonicalBody, DeserializableBody, FromBody, FromEmptyBody, SerializableBody,
    ValueBody,
};
use amqp_batches::{BatchItem, TransparentVec, read_run};
use amqp_codec::{Deserialize, DeserializeTerm, Serialize, SerializeTerm};
use amqp_decoder::Decoder;
use amqp_sections::{AmqpSequence, AmqpValue, Data};
use amqp_wire::{ByteSource, Error};
use std::alloc::Global;
use std::rc::Rc;

impl<T> BodySection for AmqpValue<T> {}

impl<T> BodySection for AmqpSequence<T> {}

impl BodySection for Data {}

impl<T: BatchItem> BodySection for TransparentVec<T> {}

impl<T: BodySection> BodySection for &T {}

impl<T: BodySection> BodySection for &mut T {}

impl<T: BodySection> BodySection for Box<T> {}

impl<T: BodySection> BodySection for Rc<T> {}

impl<T: SerializeTerm> SerializableBody for AmqpValue<T> {}

impl<T: SerializeTerm> SerializableBody for AmqpSequence<T> {}

impl SerializableBody for Data {}

impl<T: BatchItem> SerializableBody for TransparentVec<T> {}

impl<T: SerializableBody> SerializableBody for &T {}

impl<T: SerializableBody> SerializableBody for &mut T {}

impl<T: SerializableBody> SerializableBody for Box<T> {}

impl<T: SerializableBody> SerializableBody for Rc<T> {}

impl<T: DeserializeTerm> DeserializableBody for AmqpValue<T> {
    ghost group = { reading_of ⟦<AmqpValue<T> as DeserializeTerm>⟧.term };

    ghost spells = { IsTerm ⟦<AmqpValue<T> as DeserializeTerm>⟧.term };

    ghost faults = { IsNoTerm };

    fn read_group<R: ByteSource>(
        _code: u8,
        decoder: &mut Decoder<R>,
        alloc: Global,
    ) -> Result<AmqpValue<T>, Error> {
        AmqpValue::read_value(decoder, alloc)
    }

    ghost is_read = { term_is_read ⟦<AmqpValue<T> as DeserializeTerm>⟧.term };

    ghost is_named = { term_named ⟦<AmqpValue<T> as DeserializeTerm>⟧.term };
}

impl<T: DeserializeTerm> DeserializableBody for AmqpSequence<T> {
    ghost group = { reading_of ⟦<AmqpSequence<T> as DeserializeTerm>⟧.term };

    ghost spells = { IsTerm ⟦<AmqpSequence<T> as DeserializeTerm>⟧.term };

    ghost faults = { IsNoTerm };

    fn read_group<R: ByteSource>(
        _code: u8,
        decoder: &mut Decoder<R>,
        alloc: Global,
    ) -> Result<AmqpSequence<T>, Error> {
        AmqpSequence::read_value(decoder, alloc)
    }

    ghost is_read = { term_is_read ⟦<AmqpSequence<T> as DeserializeTerm>⟧.term };

    ghost is_named = { term_named ⟦<AmqpSequence<T> as DeserializeTerm>⟧.term };
}

impl DeserializableBody for Data {
    ghost group = { reading_of ⟦<Data as DeserializeTerm>⟧.term };

    ghost spells = { IsTerm ⟦<Data as DeserializeTerm>⟧.term };

    ghost faults = { IsNoTerm };

    fn read_group<R: ByteSource>(
        _code: u8,
        decoder: &mut Decoder<R>,
        alloc: Global,
    ) -> Result<Data, Error> {
        Data::read_value(decoder, alloc)
    }

    ghost is_read = { term_is_read ⟦<Data as DeserializeTerm>⟧.term };

    ghost is_named = { term_named ⟦<Data as DeserializeTerm>⟧.term };
}

impl<T: BatchItem + DeserializeTerm> DeserializableBody for TransparentVec<T> {
    ghost group = { seen_reading (run_reading T.code ⟦<TransparentVec<T> as Deserialize>⟧.reading) };

    ghost spells = { IsSection T.code (IsBatch T.code (IsTerm T.term)) };

    ghost faults = { IsSectionFault T.code (IsRunFault T.code T.term) };

    fn read_group<R: ByteSource>(
        code: u8,
        decoder: &mut Decoder<R>,
        alloc: Global,
    ) -> Result<TransparentVec<T>, Error> {
        if code == T::code() {
            Ok(TransparentVec::new(read_run(decoder, alloc)?))
        } else {
            Err(decoder.refuse(Error::WrongDescriptor))
        }
    }

    ghost is_read = { seen_is_read (section_is_read T.code (batch_is_read T.code T.term)) };

    ghost is_named = { seen_named (section_named T.code (batch_named T.code T.term)) };
}

impl<T: FromEmptyBody> FromEmptyBody for AmqpValue<T> {
    ghost empties = { record { is = λ v. T.empties.is v.0; test = λ v. T.empties.test v.0; tested = λ v. T.empties.tested v.0 } };

    fn from_empty_body(alloc: Global) -> Result<AmqpValue<T>, Error> {
        match T::from_empty_body(alloc) {
            Ok(value) => Ok(AmqpValue(value)),
            Err(error) => Err(error),
        }
    }
}

impl<T> FromEmptyBody for AmqpSequence<T> {
    ghost empties = { no_value };

    fn from_empty_body(_alloc: Global) -> Result<AmqpSequence<T>, Error> {
        Err(Error::EmptyBody)
    }
}

impl FromEmptyBody for Data {
    ghost empties = { no_value };

    fn from_empty_body(_alloc: Global) -> Result<Data, Error> {
        Err(Error::EmptyBody)
    }
}

impl<T> FromEmptyBody for TransparentVec<T> {
    ghost empties = { no_value };

    fn from_empty_body(_alloc: Global) -> Result<TransparentVec<T>, Error> {
        Err(Error::EmptyBody)
    }
}

impl<T: DeserializeTerm + FromEmptyBody> FromBody for AmqpValue<T> {
    type Body = AmqpValue<T>;

    ghost made = { value_made T.term T.empties };

    fn from_body(body: AmqpValue<T>, _alloc: Global) -> Result<AmqpValue<T>, Error> {
        Ok(body)
    }

    ghost group_is = { reads_itself _ };

    ghost empty_is = { λ v h. h };

    ghost is_empty = { λ v h. h };
}

impl<T: DeserializeTerm> FromBody for AmqpSequence<T> {
    type Body = AmqpSequence<T>;

    ghost made = { section_made ⟦<AmqpSequence<T> as DeserializeTerm>⟧.term };

    fn from_body(body: AmqpSequence<T>, _alloc: Global) -> Result<AmqpSequence<T>, Error> {
        Ok(body)
    }

    ghost group_is = { reads_itself _ };

    ghost empty_is = { λ v h. h };

    ghost is_empty = { λ v h. h };
}

impl FromBody for Data {
    type Body = Data;

    ghost made = { section_made ⟦<Data as DeserializeTerm>⟧.term };

    fn from_body(body: Data, _alloc: Global) -> Result<Data, Error> {
        Ok(body)
    }

    ghost group_is = { reads_itself _ };

    ghost empty_is = { λ v h. h };

    ghost is_empty = { λ v h. h };
}

impl<T: BatchItem + DeserializeTerm> FromBody for TransparentVec<T> {
    type Body = TransparentVec<T>;

    ghost made = { itself (seen_reading (run_reading T.code ⟦<TransparentVec<T> as Deserialize>⟧.reading))
        (seen_bound _ (group_bound T.code T.term)) };

    fn from_body(body: TransparentVec<T>, _alloc: Global) -> Result<TransparentVec<T>, Error> {
        Ok(body)
    }

    ghost group_is = { reads_itself _ };

    ghost empty_is = { λ v h. h };

    ghost is_empty = { λ v h. h };
}

impl CanonicalBody for Data {
    ghost follows = { λ _. Unit {0} };

    ghost again = { normal ⟦<Data as DeserializeTerm>⟧.term.norm };

    ghost kept = { λ _. Unit {0} };

    ghost lasts = { λ _. Unit {0} };

    ghost is_text = { section_is_text 0x75 (data_section in_data (writing_of binary_type refl))
        (section_agreement in_data data_naming (agreement binary_type refl)) (inl refl) };
}

impl<T: DeserializeTerm> CanonicalBody for AmqpSequence<T> {
    ghost follows = { λ _. Unit {0} };

    ghost again = { normal ⟦<AmqpSequence<T> as DeserializeTerm>⟧.term.norm };

    ghost kept = { λ _. Unit {0} };

    ghost lasts = { λ _. Unit {0} };

    ghost is_text = { section_is_text 0x76 (sequence_section in_sequence ⟦<Vec<T> as Serialize>⟧.writing)
        (section_agreement in_sequence sequence_naming (vec_agreement T.agreement)) (inr (inl refl)) };
}

/// An empty batch is written as no sections, which aren't read as a batch.
impl<T: BatchItem + DeserializeTerm> CanonicalBody for TransparentVec<T> {
    ghost follows = { λ more. IsSectionAhead more T.code → ⊥ };

    ghost again = { batch_again T.term };

    ghost kept = { λ _. Unit {0} };

    ghost lasts = { λ batch. sections_in batch ≡ [] → ⊥ };

    ghost is_text = { batch_is_text T.code T.is_section T.agreement T.is_repeated };
}

impl<T: ValueBody> CanonicalBody for AmqpValue<T> {
    ghost follows = { λ _. Unit {0} };

    ghost again = { normal ⟦<AmqpValue<T> as DeserializeTerm>⟧.term.norm };

    ghost kept = { λ _. Unit {0} };

    ghost lasts = { λ _. Unit {0} };

    ghost is_text = { value_is_text T.agreement T.empties T.empty_is_spelled };
}
