//! Restricted types: each value is a number of a primitive type, or a text, which is a symbol.
ghost use Rattle.std.specs.Prelude.{◌≡◌, ◌∷◌, [], IfErr, IfOk, false, true, string_bytes};
ghost use Rattle.amqp_model.specs.Term.{leaf};
ghost use Rattle.amqp_wire.specs.declared.error.Error.TheVariants.{Memory, UnknownNumber, UnknownText};
ghost use Rattle.amqp_wire.specs.Sources.{Tells};
ghost use Rattle.amqp_decoder.specs.Places.{AnswersAt, Here};
ghost use Rattle.amqp_decoder.specs.Primitives.{ReadsValue, Means, PrimitiveFault};
ghost use Rattle.amqp_decoder.specs.Steps.{Tries};
ghost use Rattle.amqp_codec.specs.Written.{WritesTerms};
ghost use Rattle.amqp_codec.specs.PrimitiveTypes.{boolean_base, ubyte_base, ushort_base, uint_base, symbol_base};
ghost use Rattle.amqp_sums.specs.Restricted.{ReadsRestricted, IsUnknown, Converts};

use amqp_decoder::Decoder;
use amqp_encoder::{Encoder, Pass};
use amqp_wire::{ByteSource, Error, Symbol};
use std::alloc::Global;

/// A primitive type, some of whose numbers are those of a restricted type.
pub trait Base: Sized + Drop {
    ghost use Rattle.amqp_codec.specs.PrimitiveTypes.{Base};

    ghost base: { Base Self };

    /// Reads a number.
    fn read<R: ByteSource>(decoder: &mut Decoder<R>) -> Result<Self, Error>
        ensures read { Tells R.remaining → AnswersAt false (ReadsValue (Means base.make)) (Here (PrimitiveFault base.kind))
            decoder.old result decoder.new }
        ensures tries { Tries false decoder.old result decoder.new };

    /// Writes the number.
    fn write<P: Pass>(self, encoder: &mut Encoder<P>) -> Result<(), Error>
        ensures { WritesTerms (leaf (base.make self) ∷ []) encoder.old result encoder.new };
}

impl Base for bool {
    ghost base = { boolean_base };

    fn read<R: ByteSource>(decoder: &mut Decoder<R>) -> Result<bool, Error> {
        decoder.read_bool()
    }

    fn write<P: Pass>(self, encoder: &mut Encoder<P>) -> Result<(), Error> {
        encoder.write_bool(self)
    }
}

impl Base for u8 {
    ghost base = { ubyte_base };

    fn read<R: ByteSource>(decoder: &mut Decoder<R>) -> Result<u8, Error> {
        decoder.read_ubyte()
    }

    fn write<P: Pass>(self, encoder: &mut Encoder<P>) -> Result<(), Error> {
        encoder.write_ubyte(self)
    }
}

impl Base for u16 {
    ghost base = { ushort_base };

    fn read<R: ByteSource>(decoder: &mut Decoder<R>) -> Result<u16, Error> {
        decoder.read_ushort()
    }

    fn write<P: Pass>(self, encoder: &mut Encoder<P>) -> Result<(), Error> {
        encoder.write_ushort(self)
    }
}

impl Base for u32 {
    ghost base = { uint_base };

    fn read<R: ByteSource>(decoder: &mut Decoder<R>) -> Result<u32, Error> {
        decoder.read_uint()
    }

    fn write<P: Pass>(self, encoder: &mut Encoder<P>) -> Result<(), Error> {
        encoder.write_uint(self)
    }
}

/// A type with a number for each value.
pub trait RestrictedNumber: Sized + Drop {
    ghost use Rattle.std.specs.Prelude.{MatchOption};

    /// The primitive type of the numbers.
    type Number: Base;

    // The table: the number of each value.
    ghost numbers: { Self → Self.Number };

    /// Returns the value's number.
    fn number(&self) -> Self::Number
        ensures { result ≡ numbers self.now };

    /// Returns the value that has this number.
    fn from_number(number: Self::Number) -> Option<Self>
        ensures { MatchOption result (IsUnknown numbers number) (λ value. numbers value ≡ number) };
}

/// Reads a value by its number. It doesn't allocate. Any other number of the primitive type is refused with `UnknownNumber`.
pub fn read_number<T: RestrictedNumber, R: ByteSource>(decoder: &mut Decoder<R>) -> Result<T, Error>
    ensures read { Tells R.remaining → ReadsRestricted T.Number.base UnknownNumber T.numbers false decoder.old result decoder.new }
    ensures tries { Tries false decoder.old result decoder.new }
{
    let place = decoder.place();
    let number = T::Number::read(decoder)?;
    match T::from_number(number) {
        Some(value) => Ok(value),
        None => Err(decoder.refuse_at(place, Error::UnknownNumber)),
    }
}

/// Writes the value's number.
pub fn write_number<T: RestrictedNumber, P: Pass>(
    value: &T,
    encoder: &mut Encoder<P>,
) -> Result<(), Error>
    ensures { WritesTerms (leaf (T.Number.base.make (T.numbers value.now)) ∷ []) encoder.old result encoder.new }
{
    value.number().write(encoder)
}

/// A type with a text for each value.
pub trait RestrictedText: Sized + Drop {
    ghost use Rattle.std.specs.Prelude.{MatchOption, ℕ, List};

    // The table: the text of each value.
    ghost texts: { Self → List ℕ };

    /// Returns the value's text.
    fn text(&self) -> &'static str
        ensures { result.now ≡ texts self.now };

    /// Returns the value that has this text.
    fn from_text(text: &str) -> Option<Self>
        ensures { MatchOption result (IsUnknown texts text.now) (λ value. texts value ≡ text.now) };
}

/// Reads a value by its text, for which it allocates. Any other symbol is refused with `UnknownText`.
pub fn read_text<T: RestrictedText, R: ByteSource>(
    decoder: &mut Decoder<R>,
    alloc: Global,
) -> Result<T, Error>
    ensures read { Tells R.remaining → ReadsRestricted symbol_base UnknownText T.texts true decoder.old result decoder.new }
    ensures tries { Tries true decoder.old result decoder.new }
{
    let place = decoder.place();
    let symbol = decoder.read_symbol(alloc)?;
    match T::from_text(symbol.as_str()) {
        Some(value) => Ok(value),
        None => Err(decoder.refuse_at(place, Error::UnknownText)),
    }
}

/// Writes the value's text.
pub fn write_text<T: RestrictedText, P: Pass>(
    value: &T,
    encoder: &mut Encoder<P>,
) -> Result<(), Error>
    ensures { WritesTerms (leaf (symbol_base.make (T.texts value.now)) ∷ []) encoder.old result encoder.new }
{
    encoder.write_symbol(value.text())
}

/// Returns the value's text as a symbol. The only error is `Memory`.
pub fn symbol_of<T: RestrictedText>(value: &T, alloc: Global) -> Result<Symbol, Error>
    ensures text { IfOk result (λ symbol. string_bytes symbol.0 ≡ T.texts value.now) }
    ensures refused { IfErr result (λ e. e ≡ Memory) }
{
    Ok(String::from_str(alloc, value.text())?.into())
}

/// Returns the value that has this text. A symbol with any other text is returned as the error.
pub fn from_symbol<T: RestrictedText>(symbol: Symbol) -> Result<T, Symbol>
    ensures { Converts T.texts (string_bytes symbol.0) symbol result }
{
    match T::from_text(symbol.as_str()) {
        Some(value) => Ok(value),
        None => Err(symbol),
    }
}
