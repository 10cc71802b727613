//! Texts (Part 1, section 1.6.20) and symbols (section 1.6.21). Borrowed ones are written only.
ghost use Rattle.std.specs.Prelude.{refl};
ghost use Rattle.std.specs.Cow.{cow_str_bytes};
ghost use Rattle.amqp_codec.specs.PrimitiveTypes.{string_bytes_type};
ghost use Rattle.amqp_codec.specs.Wrappers.{string_type, symbol_type};
ghost use Rattle.amqp_codec.specs.Agreement.{one_term, agreement, writing_of, via_writing};

use crate::{DeserializeTerm, Serialize, SerializeTerm};
use amqp_decoder::Decoder;
use amqp_encoder::{Encoder, Pass};
use amqp_wire::{ByteSource, Error, Symbol};
use std::alloc::Global;
use std::borrow::CowStr;

impl Serialize for String {
    ghost writing = { writing_of string_type refl };

    fn serialize<P: Pass>(&self, encoder: &mut Encoder<P>) -> Result<(), Error> {
        encoder.write_string(self.as_str())
    }

    fn in_type(&self) {
        let _text = self.as_str();
    }
}

impl SerializeTerm for String {
    fn is_null(&self) -> bool {
        false
    }

    ghost is_term = { one_term string_type refl };
}

impl DeserializeTerm for String {
    ghost term = { string_type };

    fn read_value<R: ByteSource>(decoder: &mut Decoder<R>, alloc: Global) -> Result<String, Error> {
        decoder.read_string(alloc)
    }

    ghost agreement = { agreement string_type refl };
}

impl Serialize for Symbol {
    ghost writing = { writing_of symbol_type refl };

    fn serialize<P: Pass>(&self, encoder: &mut Encoder<P>) -> Result<(), Error> {
        encoder.write_symbol(self.as_str())
    }

    fn in_type(&self) {}
}

impl SerializeTerm for Symbol {
    fn is_null(&self) -> bool {
        false
    }

    ghost is_term = { one_term symbol_type refl };
}

impl DeserializeTerm for Symbol {
    ghost term = { symbol_type };

    fn read_value<R: ByteSource>(decoder: &mut Decoder<R>, alloc: Global) -> Result<Symbol, Error> {
        decoder.read_symbol(alloc)
    }

    ghost agreement = { agreement symbol_type refl };
}

impl Serialize for &str {
    ghost writing = { via_writing (λ v. v.now) (writing_of string_bytes_type refl) };

    fn serialize<P: Pass>(&self, encoder: &mut Encoder<P>) -> Result<(), Error> {
        encoder.write_string(*self)
    }

    fn in_type(&self) {
        let _text: &str = *self;
    }
}

impl SerializeTerm for &str {
    fn is_null(&self) -> bool {
        false
    }

    ghost is_term = { λ v. refl };
}

impl Serialize for CowStr<'_> {
    ghost writing = { via_writing cow_str_bytes (writing_of string_bytes_type refl) };

    fn serialize<P: Pass>(&self, encoder: &mut Encoder<P>) -> Result<(), Error> {
        encoder.write_string(self.as_str())
    }

    fn in_type(&self) {
        let _text = self.as_str();
    }
}

impl SerializeTerm for CowStr<'_> {
    fn is_null(&self) -> bool {
        false
    }

    ghost is_term = { λ v. refl };
}
