//! Lists as the body of a message (Part 3, section 3.2.7).
ghost use Rattle.std.specs.Prelude.{◌≡◌, [], refl};
ghost use Rattle.amqp_codec.specs.VecType.{vec_of, vec_agreement};
ghost use Rattle.amqp_sections.specs.SectionType.{section_of, section_writing, section_agreement};
ghost use Rattle.amqp_sections.specs.Sections.{sequence_naming, in_sequence};

use crate::section::{Section, read_section, write_section};
use amqp_codec::{
    ByteSource, Decoder, DeserializeTerm, Encoder, Error, Pass, Serialize, SerializeTerm,
};
use amqp_wire::section_code;
use std::alloc::Global;

// The code and the name of its descriptor.
const DESCRIPTOR: (u64, &str) = (
    section_code::AMQP_SEQUENCE as u64,
    "amqp:amqp-sequence:list",
);

/// A list of values of one type that is the body of a message, or a part of it (Part 3, section 3.2.7). `clone` allocates; its values are
/// clones of the values, in order.
#[derive(Clone, Debug, PartialEq, Eq, PartialOrd, Ord, Hash, Drop)]
pub struct AmqpSequence<T>(pub Vec<T>);

impl<T> AmqpSequence<T> {
    /// Returns the sequence of these values.
    pub fn new(values: Vec<T>) -> AmqpSequence<T>
        ensures { result.0 ≡ values }
    {
        AmqpSequence(values)
    }

    /// Returns the sequence without values. It doesn't allocate.
    pub fn default_in(alloc: Global) -> AmqpSequence<T>
        ensures { result.0.items ≡ [] }
    {
        AmqpSequence(Vec::new(alloc))
    }
}

impl<T> From<Vec<T>> for AmqpSequence<T> {
    ghost from_gives = { λ values sequence. sequence.0 ≡ values };

    fn from(values: Vec<T>) -> AmqpSequence<T> {
        AmqpSequence(values)
    }
}

impl<T: DeserializeTerm> Section<Vec<T>> for AmqpSequence<T> {
    ghost naming = { sequence_naming };

    ghost holds = { in_sequence };

    fn descriptor() -> (u64, &'static str) {
        DESCRIPTOR
    }

    fn of_content(value: Vec<T>) -> AmqpSequence<T> {
        AmqpSequence(value)
    }
}

impl<T: SerializeTerm> Serialize for AmqpSequence<T> {
    ghost writing = { section_writing in_sequence sequence_naming ⟦<Vec<T> as Serialize>⟧.writing };

    fn serialize<P: Pass>(&self, encoder: &mut Encoder<P>) -> Result<(), Error> {
        write_section(DESCRIPTOR.0, &self.0, encoder)
    }

    fn in_type(&self) {
        self.0.in_type();
    }
}

impl<T: SerializeTerm> SerializeTerm for AmqpSequence<T> {
    fn is_null(&self) -> bool {
        false
    }

    ghost is_term = { λ v. refl };
}

impl<T: DeserializeTerm> DeserializeTerm for AmqpSequence<T> {
    ghost term = { section_of in_sequence sequence_naming (vec_of T.term) };

    fn read_value<R: ByteSource>(
        decoder: &mut Decoder<R>,
        alloc: Global,
    ) -> Result<AmqpSequence<T>, Error> {
        read_section::<_, Vec<T>, _>(decoder, alloc)
    }

    ghost agreement = { section_agreement in_sequence sequence_naming (vec_agreement T.agreement) };
}
