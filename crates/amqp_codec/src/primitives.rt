//! Null, booleans and characters (Part 1, sections 1.6.1, 1.6.2 and 1.6.16).
ghost use Rattle.std.specs.Prelude.{refl, Some};
ghost use Rattle.amqp_codec.specs.PrimitiveTypes.{null_type, boolean_type, char_type};
ghost use Rattle.amqp_codec.specs.Agreement.{one_term, agreement, writing_of};

use crate::{DeserializeTerm, Serialize, SerializeTerm};
use amqp_decoder::Decoder;
use amqp_encoder::{Encoder, Pass};
use amqp_wire::{ByteSource, Error};
use std::alloc::Global;

impl Serialize for () {
    ghost writing = { writing_of null_type refl };

    fn serialize<P: Pass>(&self, encoder: &mut Encoder<P>) -> Result<(), Error> {
        encoder.write_null()
    }

    fn in_type(&self) {}
}

impl SerializeTerm for () {
    fn is_null(&self) -> bool {
        true
    }

    ghost is_term = { one_term null_type refl };
}

impl DeserializeTerm for () {
    ghost term = { null_type };

    ghost meant_by_null = { Some tt };

    fn read_value<R: ByteSource>(decoder: &mut Decoder<R>, _alloc: Global) -> Result<(), Error> {
        decoder.read_null()
    }

    ghost agreement = { agreement null_type refl };
}

impl Serialize for bool {
    ghost writing = { writing_of boolean_type refl };

    #[inline(always)]
    fn serialize<P: Pass>(&self, encoder: &mut Encoder<P>) -> Result<(), Error> {
        encoder.write_bool(*self)
    }

    fn in_type(&self) {}
}

impl SerializeTerm for bool {
    fn is_null(&self) -> bool {
        false
    }

    ghost is_term = { one_term boolean_type refl };
}

impl DeserializeTerm for bool {
    ghost term = { boolean_type };

    fn read_value<R: ByteSource>(decoder: &mut Decoder<R>, _alloc: Global) -> Result<bool, Error> {
        decoder.read_bool()
    }

    ghost agreement = { agreement boolean_type refl };
}

impl Serialize for char {
    ghost writing = { writing_of char_type refl };

    fn serialize<P: Pass>(&self, encoder: &mut Encoder<P>) -> Result<(), Error> {
        encoder.write_char(*self)
    }

    fn in_type(&self) {
        let _value = *self;
    }
}

impl SerializeTerm for char {
    fn is_null(&self) -> bool {
        false
    }

    ghost is_term = { one_term char_type refl };
}

impl DeserializeTerm for char {
    ghost term = { char_type };

    fn read_value<R: ByteSource>(decoder: &mut Decoder<R>, _alloc: Global) -> Result<char, Error> {
        decoder.read_char()
    }

    ghost agreement = { agreement char_type refl };
}
