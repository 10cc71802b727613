//! What can be read, written, or both.
ghost use Rattle.std.specs.Prelude.{◌≡◌, ℕ, Bool, List, Option, None};
ghost use Rattle.amqp_model.specs.FieldType.{normal};
ghost use Rattle.amqp_model.specs.Items.{is_null};
ghost use Rattle.amqp_codec.specs.TermType.{TermType};
ghost use Rattle.amqp_codec.specs.Written.{WritesTerms, Writing, IsOneTerm, canon_of};
ghost use Rattle.amqp_codec.specs.Agreement.{Agreement};
ghost use Rattle.amqp_wire.specs.Sources.{Tells};
ghost use Rattle.amqp_decoder.specs.Places.{AnswersAt};
ghost use Rattle.amqp_decoder.specs.Primitives.{ReadsValue};
ghost use Rattle.amqp_decoder.specs.Steps.{Tries};
ghost use Rattle.amqp_codec.specs.Reading.{Reading};
ghost use Rattle.amqp_codec.specs.TermReading.{reading_of};
ghost use Rattle.amqp_codec.specs.Rewriting.{Rewriting, rewrites};

use amqp_decoder::Decoder;
use amqp_encoder::{Encoder, Pass};
use amqp_wire::{ByteSource, Error};
use std::alloc::Global;

/// What can be written.
pub trait Serialize {
    // The canonical terms, one for each section, and what a value of the type is.
    ghost writing: { Writing Self };

    /// Writes the value to an encoder that measures, and again to one that fills. While it is measured, a type may allocate, and then it may
    /// fail, by `Encoder::refuse`. What was measured is filled in without fail. `Encoder::fills` returns which pass it is.
    fn serialize<P: Pass>(&self, encoder: &mut Encoder<P>) -> Result<(), Error>
        ensures { WritesTerms (writing.canons self.now) encoder.old result encoder.new };

    /// Promises that the value is one of its type. It doesn't allocate.
    fn in_type(&self)
        ensures { writing.is_value self.now };
}

/// What can be read. A one-term type has this by `DeserializeTerm`; any other type implements it by hand.
pub trait Deserialize: Sized + Drop {
    // From which state of a decoder a value is read, and the laws.
    ghost reading: { Reading Self };

    /// Returns whether the type is one term, so that nothing after a value is looked at.
    fn is_one_term() -> bool
        ensures { result ≡ reading.one_term };

    /// Reads the value that comes next. An error is `Memory`, if reading the type allocates, or the source's; or it reports a fault of the
    /// value.
    fn deserialize<R: ByteSource>(decoder: &mut Decoder<R>, alloc: Global) -> Result<Self, Error>
        ensures read { Tells R.remaining → AnswersAt reading.takes_memory reading.reads reading.fault decoder.old result decoder.new }
        ensures tries { Tries reading.takes_memory decoder.old result decoder.new };
}

/// What can be both read and written. A value that was read has one canonical text, however it was encoded. If the value is kept (`kept`),
/// and what follows the text may follow it (`follows`), the text is read as that value. A one-term type has this by `DeserializeTerm`; any
/// other type implements it by hand.
pub trait Canonical: Deserialize + Serialize {
    // What may come after a text: anything, unless an impl says less.
    ghost follows: { List ℕ → Type 0 } = { λ _. Unit {0} };

    // What the text of a value is read as.
    ghost again: { Self → Self };

    // That is the value: always, unless an impl says less.
    ghost kept: { Self → Type 0 } = { λ _. Unit {0} };

    // Its text is read at all: always, unless an impl says less.
    ghost lasts: { Self → Type 0 } = { λ _. Unit {0} };

    // No encoding of a value without arrays is shorter than its text.
    ghost is_least: { Bool };

    // The laws.
    ghost rewrites: { Rewriting Self.reading Self.writing.canons Self.writing.is_value follows again kept lasts is_least };
}

/// What is written as one term, which may be an item of a list, a map or an array.
pub trait SerializeTerm: Serialize {
    /// Returns whether the value's canonical term is null.
    fn is_null(&self) -> bool
        ensures { result ≡ is_null (canon_of Self.writing self.now) };

    // The canonical terms are one.
    ghost is_term: { IsOneTerm Self.writing };
}

/// What is read and written as one term. By its record `term` it is `Deserialize` and `Canonical` too. So code that is generic in such a
/// type needs this trait alone as a bound, and reads by `read_value`.
pub trait DeserializeTerm: SerializeTerm + Sized + Drop {
    // Which terms mean the values, which one is canonical, and the laws of both.
    ghost term: { TermType Self };

    // The value that a null means, if an impl tells it.
    ghost meant_by_null: { Option Self } = { None };

    /// Reads the value that comes next. An error is `Memory`, if reading the type allocates, or the source's; or it reports a fault of the
    /// value.
    fn read_value<R: ByteSource>(decoder: &mut Decoder<R>, alloc: Global) -> Result<Self, Error>
        ensures read { Tells R.remaining
            → AnswersAt term.takes_memory (ReadsValue term.means) term.faults.fault decoder.old result decoder.new }
        ensures tries { Tries term.takes_memory decoder.old result decoder.new };

    // It is written as its record says.
    ghost agreement: { Agreement term Self.writing };
}

impl<T: DeserializeTerm> Deserialize for T {
    ghost reading = { reading_of T.term };

    fn is_one_term() -> bool {
        true
    }

    fn deserialize<R: ByteSource>(decoder: &mut Decoder<R>, alloc: Global) -> Result<T, Error> {
        T::read_value(decoder, alloc)
    }
}

impl<T: DeserializeTerm> Canonical for T {
    ghost again = { normal T.term.norm };

    ghost is_least = { T.term.is_least };

    ghost rewrites = { rewrites T.agreement };
}
