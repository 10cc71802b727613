//! Values as the body of a message (Part 3, section 3.2.8).
ghost use Rattle.std.specs.Prelude.{refl};
ghost use Rattle.amqp_sections.specs.SectionType.{section_of, section_writing, section_agreement};
ghost use Rattle.amqp_sections.specs.Sections.{value_naming, in_value};

use crate::section::{Section, read_section, write_section};
use amqp_codec::{
    ByteSource, Decoder, DeserializeTerm, Encoder, Error, Pass, Serialize, SerializeTerm,
};
use amqp_wire::section_code;
use std::alloc::Global;

// The code and the name of its descriptor.
const DESCRIPTOR: (u64, &str) = (section_code::AMQP_VALUE as u64, "amqp:amqp-value:*");

/// A value of one type that is the body of a message (Part 3, section 3.2.8). If that type has kept bytes, so has the section: those after
/// its descriptor. A clone holds a clone of the value.
#[derive(Clone, Debug, PartialEq, Eq, PartialOrd, Ord, Hash, Drop)]
pub struct AmqpValue<T>(pub T);

impl<T: DeserializeTerm> Section<T> for AmqpValue<T> {
    ghost naming = { value_naming };

    ghost holds = { in_value };

    fn descriptor() -> (u64, &'static str) {
        DESCRIPTOR
    }

    fn of_content(value: T) -> AmqpValue<T> {
        AmqpValue(value)
    }
}

impl<T: SerializeTerm> Serialize for AmqpValue<T> {
    ghost writing = { section_writing in_value value_naming T.writing };

    fn serialize<P: Pass>(&self, encoder: &mut Encoder<P>) -> Result<(), Error> {
        write_section(DESCRIPTOR.0, &self.0, encoder)
    }

    fn in_type(&self) {
        self.0.in_type();
    }
}

impl<T: SerializeTerm> SerializeTerm for AmqpValue<T> {
    fn is_null(&self) -> bool {
        false
    }

    ghost is_term = { λ v. refl };
}

impl<T: DeserializeTerm> DeserializeTerm for AmqpValue<T> {
    ghost term = { section_of in_value value_naming T.term };

    fn read_value<R: ByteSource>(
        decoder: &mut Decoder<R>,
        alloc: Global,
    ) -> Result<AmqpValue<T>, Error> {
        read_section::<_, T, _>(decoder, alloc)
    }

    ghost agreement = { section_agreement in_value value_naming T.agreement };
}
