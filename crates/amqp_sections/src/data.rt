//! Bytes as the body of a message (Part 3, section 3.2.6).
ghost use Rattle.std.specs.Prelude.{◌≡◌, IfOk, IfErr, refl};
ghost use Rattle.amqp_wire.specs.declared.error.Error.TheVariants.{Memory};
ghost use Rattle.amqp_codec.specs.Agreement.{agreement, writing_of};
ghost use Rattle.amqp_primitives.specs.Types.{binary_type};
ghost use Rattle.amqp_sections.specs.SectionType.{section_of, section_writing, section_agreement};
ghost use Rattle.amqp_sections.specs.Sections.{data_naming, in_data};
ghost use Rattle.amqp_values.specs.Taken.{TakesOut};
ghost use Rattle.amqp_values.specs.declared.value.Value.{Binary as BinaryOf};

use crate::section::{Section, read_section, write_section};
use amqp_codec::{
    ByteSource, Decoder, DeserializeTerm, Encoder, Error, Pass, Serialize, SerializeTerm,
};
use amqp_primitives::Binary;
use amqp_values::Value;
use amqp_wire::section_code;
use std::alloc::Global;

/// Bytes that are the body of a message, or a part of it (Part 3, section 3.2.6).
#[derive(Clone, Debug, PartialEq, Eq, PartialOrd, Ord, Hash, Drop)]
pub struct Data(pub Binary);

impl Data {
    /// The code and the name of its descriptor.
    pub const DESCRIPTOR: (u64, &'static str) = (section_code::DATA as u64, "amqp:data:binary");

    /// Returns data with a copy of these bytes. The only error is `Memory`.
    pub fn copy_of(bytes: &[u8], alloc: Global) -> Result<Data, Error>
        ensures bytes { IfOk result (λ copy. copy.0.0.items ≡ bytes.now) }
        ensures refused { IfErr result (λ e. e ≡ Memory) }
    {
        Ok(Data(Binary(Vec::from_slice(alloc, bytes)?)))
    }
}

impl From<Binary> for Data {
    ghost from_gives = { λ bytes section. section.0 ≡ bytes };

    fn from(bytes: Binary) -> Data {
        Data(bytes)
    }
}

impl From<Vec<u8>> for Data {
    ghost from_gives = { λ bytes section. section.0.0 ≡ bytes };

    fn from(bytes: Vec<u8>) -> Data {
        Data(Binary(bytes))
    }
}

/// Returns a value of another kind as the error.
impl TryFrom<Value> for Data {
    type Error = Value;

    ghost try_from_gives = { TakesOut (λ section. BinaryOf section.0) };

    fn try_from(value: Value) -> Result<Data, Value> {
        match value {
            Value::Binary(bytes) => Ok(Data(bytes)),
            other => Err(other),
        }
    }
}

impl Section<Binary> for Data {
    ghost naming = { data_naming };

    ghost holds = { in_data };

    fn descriptor() -> (u64, &'static str) {
        Data::DESCRIPTOR
    }

    fn of_content(value: Binary) -> Data {
        Data(value)
    }
}

impl Serialize for Data {
    ghost writing = { section_writing in_data data_naming (writing_of binary_type refl) };

    fn serialize<P: Pass>(&self, encoder: &mut Encoder<P>) -> Result<(), Error> {
        write_section(Data::DESCRIPTOR.0, &self.0, encoder)
    }

    fn in_type(&self) {
        self.0.in_type();
    }
}

impl SerializeTerm for Data {
    fn is_null(&self) -> bool {
        false
    }

    ghost is_term = { λ v. refl };
}

impl DeserializeTerm for Data {
    ghost term = { section_of in_data data_naming binary_type };

    fn read_value<R: ByteSource>(decoder: &mut Decoder<R>, alloc: Global) -> Result<Data, Error> {
        read_section::<_, Binary, _>(decoder, alloc)
    }

    ghost agreement = { section_agreement in_data data_naming (agreement binary_type refl) };
}
