//! The integer types of std (Part 1, sections 1.6.3 to 1.6.10).
ghost use Rattle.std.specs.Prelude.{refl};
ghost use Rattle.amqp_codec.specs.PrimitiveTypes.{ubyte_type, ushort_type, uint_type, ulong_type};
ghost use Rattle.amqp_codec.specs.PrimitiveTypes.{byte_type, short_type, int_type, long_type};
ghost use Rattle.amqp_codec.specs.Agreement.{one_term, agreement, writing_of};

use crate::{DeserializeTerm, Serialize, SerializeTerm};
use amqp_decoder::Decoder;
use amqp_encoder::{Encoder, Pass};
use amqp_wire::{ByteSource, Error};
use std::alloc::Global;

impl Serialize for u8 {
    ghost writing = { writing_of ubyte_type refl };

    #[inline(always)]
    fn serialize<P: Pass>(&self, encoder: &mut Encoder<P>) -> Result<(), Error> {
        encoder.write_ubyte(*self)
    }

    fn in_type(&self) {
        let _value = *self;
    }
}

impl SerializeTerm for u8 {
    fn is_null(&self) -> bool {
        false
    }

    ghost is_term = { one_term ubyte_type refl };
}

impl DeserializeTerm for u8 {
    ghost term = { ubyte_type };

    fn read_value<R: ByteSource>(decoder: &mut Decoder<R>, _alloc: Global) -> Result<u8, Error> {
        decoder.read_ubyte()
    }

    ghost agreement = { agreement ubyte_type refl };
}

impl Serialize for u16 {
    ghost writing = { writing_of ushort_type refl };

    #[inline(always)]
    fn serialize<P: Pass>(&self, encoder: &mut Encoder<P>) -> Result<(), Error> {
        encoder.write_ushort(*self)
    }

    fn in_type(&self) {
        let _value = *self;
    }
}

impl SerializeTerm for u16 {
    fn is_null(&self) -> bool {
        false
    }

    ghost is_term = { one_term ushort_type refl };
}

impl DeserializeTerm for u16 {
    ghost term = { ushort_type };

    fn read_value<R: ByteSource>(decoder: &mut Decoder<R>, _alloc: Global) -> Result<u16, Error> {
        decoder.read_ushort()
    }

    ghost agreement = { agreement ushort_type refl };
}

impl Serialize for u32 {
    ghost writing = { writing_of uint_type refl };

    #[inline(always)]
    fn serialize<P: Pass>(&self, encoder: &mut Encoder<P>) -> Result<(), Error> {
        encoder.write_uint(*self)
    }

    fn in_type(&self) {
        let _value = *self;
    }
}

impl SerializeTerm for u32 {
    fn is_null(&self) -> bool {
        false
    }

    ghost is_term = { one_term uint_type refl };
}

impl DeserializeTerm for u32 {
    ghost term = { uint_type };

    fn read_value<R: ByteSource>(decoder: &mut Decoder<R>, _alloc: Global) -> Result<u32, Error> {
        decoder.read_uint()
    }

    ghost agreement = { agreement uint_type refl };
}

impl Serialize for u64 {
    ghost writing = { writing_of ulong_type refl };

    #[inline(always)]
    fn serialize<P: Pass>(&self, encoder: &mut Encoder<P>) -> Result<(), Error> {
        encoder.write_ulong(*self)
    }

    fn in_type(&self) {
        let _value = *self;
    }
}

impl SerializeTerm for u64 {
    fn is_null(&self) -> bool {
        false
    }

    ghost is_term = { one_term ulong_type refl };
}

impl DeserializeTerm for u64 {
    ghost term = { ulong_type };

    fn read_value<R: ByteSource>(decoder: &mut Decoder<R>, _alloc: Global) -> Result<u64, Error> {
        decoder.read_ulong()
    }

    ghost agreement = { agreement ulong_type refl };
}

impl Serialize for i8 {
    ghost writing = { writing_of byte_type refl };

    #[inline(always)]
    fn serialize<P: Pass>(&self, encoder: &mut Encoder<P>) -> Result<(), Error> {
        encoder.write_byte(*self)
    }

    fn in_type(&self) {
        let _value = *self;
    }
}

impl SerializeTerm for i8 {
    fn is_null(&self) -> bool {
        false
    }

    ghost is_term = { one_term byte_type refl };
}

impl DeserializeTerm for i8 {
    ghost term = { byte_type };

    fn read_value<R: ByteSource>(decoder: &mut Decoder<R>, _alloc: Global) -> Result<i8, Error> {
        decoder.read_byte()
    }

    ghost agreement = { agreement byte_type refl };
}

impl Serialize for i16 {
    ghost writing = { writing_of short_type refl };

    #[inline(always)]
    fn serialize<P: Pass>(&self, encoder: &mut Encoder<P>) -> Result<(), Error> {
        encoder.write_short(*self)
    }

    fn in_type(&self) {
        let _value = *self;
    }
}

impl SerializeTerm for i16 {
    fn is_null(&self) -> bool {
        false
    }

    ghost is_term = { one_term short_type refl };
}

impl DeserializeTerm for i16 {
    ghost term = { short_type };

    fn read_value<R: ByteSource>(decoder: &mut Decoder<R>, _alloc: Global) -> Result<i16, Error> {
        decoder.read_short()
    }

    ghost agreement = { agreement short_type refl };
}

impl Serialize for i32 {
    ghost writing = { writing_of int_type refl };

    #[inline(always)]
    fn serialize<P: Pass>(&self, encoder: &mut Encoder<P>) -> Result<(), Error> {
        encoder.write_int(*self)
    }

    fn in_type(&self) {
        let _value = *self;
    }
}

impl SerializeTerm for i32 {
    fn is_null(&self) -> bool {
        false
    }

    ghost is_term = { one_term int_type refl };
}

impl DeserializeTerm for i32 {
    ghost term = { int_type };

    fn read_value<R: ByteSource>(decoder: &mut Decoder<R>, _alloc: Global) -> Result<i32, Error> {
        decoder.read_int()
    }

    ghost agreement = { agreement int_type refl };
}

impl Serialize for i64 {
    ghost writing = { writing_of long_type refl };

    #[inline(always)]
    fn serialize<P: Pass>(&self, encoder: &mut Encoder<P>) -> Result<(), Error> {
        encoder.write_long(*self)
    }

    fn in_type(&self) {
        let _value = *self;
    }
}

impl SerializeTerm for i64 {
    fn is_null(&self) -> bool {
        false
    }

    ghost is_term = { one_term long_type refl };
}

impl DeserializeTerm for i64 {
    ghost term = { long_type };

    fn read_value<R: ByteSource>(decoder: &mut Decoder<R>, _alloc: Global) -> Result<i64, Error> {
        decoder.read_long()
    }

    ghost agreement = { agreement long_type refl };
}
