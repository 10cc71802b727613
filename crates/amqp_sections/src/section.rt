//! Sections that are one value under a descriptor, with one reader and one writer for all (Part 3, section 3.2).
ghost use Rattle.std.specs.Prelude.{◌≡◌, [], ◌∷◌};
ghost use Rattle.amqp_model.specs.Term.{code, described};
ghost use Rattle.amqp_wire.specs.Sources.{Tells};
ghost use Rattle.amqp_decoder.specs.Places.{AnswersAt};
ghost use Rattle.amqp_decoder.specs.Primitives.{ReadsValue};
ghost use Rattle.amqp_decoder.specs.Steps.{Tries};
ghost use Rattle.amqp_codec.specs.Written.{WritesTerms, canon_of};
ghost use Rattle.amqp_sections.specs.SectionType.{section_of};

use amqp_codec::{DeserializeTerm, SerializeTerm};
use amqp_decoder::Decoder;
use amqp_encoder::{Encoder, Pass};
use amqp_wire::{ByteSource, Descriptor, Error};
use std::alloc::Global;

/// A section of a message that is one value, of this type, under a descriptor of its own (Part 3, section 3.2).
pub trait Section<T>: Sized + Drop {
    ghost use Rattle.amqp_codec.specs.Wrappers.{Holds};
    ghost use Rattle.amqp_sections.specs.SectionType.{Naming};

    // The code and the name of the descriptor.
    ghost naming: { Naming };

    // The section holds the value.
    ghost holds: { Holds Self T };

    /// Returns the code and the name of the descriptor.
    fn descriptor() -> (u64, &'static str)
        ensures code { result.0 ≡ naming.code }
        ensures name { result.1.now ≡ naming.name };

    /// Returns the section with this value.
    fn of_content(value: T) -> Self
        ensures { holds.get result ≡ value };
}

/// Reads a section. It allocates only for the value.
///
/// # Errors
///
/// - `WrongDescriptor`, for another descriptor.
/// - `BadDescriptor`, for a descriptor that is neither a symbol nor a ulong, and `NonAscii`, for a symbol that isn't ASCII.
/// - `WrongType`, if what comes next isn't described.
/// - `Depth`, if values nest more than 128 deep.
/// - The errors of the value.
pub fn read_section<S: Section<T>, T: DeserializeTerm, R: ByteSource>(
    decoder: &mut Decoder<R>,
    alloc: Global,
) -> Result<S, Error>
    ensures read { Tells R.remaining → AnswersAt (section_of S.holds S.naming T.term).takes_memory
        (ReadsValue (section_of S.holds S.naming T.term).means) (section_of S.holds S.naming T.term).faults.fault
        decoder.old result decoder.new }
    ensures tries { Tries T.term.takes_memory decoder.old result decoder.new }
{
    decoder.begin_one_of(&[S::descriptor()])?;
    match T::read_value(decoder, alloc) {
        Ok(value) => match decoder.end_described() {
            Ok(()) => Ok(S::of_content(value)),
            Err(error) => Err(error),
        },
        Err(error) => Err(error),
    }
}

/// Writes a section: this value, under the code of its descriptor. It returns the encoder's errors for the value.
pub fn write_section<T: SerializeTerm, P: Pass>(
    number: u64,
    value: &T,
    encoder: &mut Encoder<P>,
) -> Result<(), Error>
    ensures { WritesTerms (described (code number) (canon_of T.writing value.now) ∷ []) encoder.old result encoder.new }
{
    encoder.begin_described(&Descriptor::Code(number))?;
    value.serialize(encoder)?;
    encoder.end_described()
}
