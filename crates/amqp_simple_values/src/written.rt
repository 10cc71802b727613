//! How simple values are written: as their kind is.
ghost use Rattle.std.specs.Prelude.{refl};
ghost use Rattle.amqp_simple_values.specs.SimpleType.{simple_writing};

use crate::SimpleValue;
use amqp_codec::{Serialize, SerializeTerm};
use amqp_encoder::{Encoder, Pass};
use amqp_wire::Error;

impl Serialize for SimpleValue {
    ghost writing = { simple_writing };

    fn serialize<P: Pass>(&self, encoder: &mut Encoder<P>) -> Result<(), Error> {
        match self {
            SimpleValue::Null => encoder.write_null(),
            SimpleValue::Bool(own) => own.serialize(encoder),
            SimpleValue::Ubyte(own) => own.serialize(encoder),
            SimpleValue::Ushort(own) => own.serialize(encoder),
            SimpleValue::Uint(own) => own.serialize(encoder),
            SimpleValue::Ulong(own) => own.serialize(encoder),
            SimpleValue::Byte(own) => own.serialize(encoder),
            SimpleValue::Short(own) => own.serialize(encoder),
            SimpleValue::Int(own) => own.serialize(encoder),
            SimpleValue::Long(own) => own.serialize(encoder),
            SimpleValue::Decimal32(own) => own.serialize(encoder),
            SimpleValue::Decimal64(own) => own.serialize(encoder),
            SimpleValue::Decimal128(own) => own.serialize(encoder),
            SimpleValue::Char(own) => own.serialize(encoder),
            SimpleValue::Timestamp(own) => own.serialize(encoder),
            SimpleValue::Uuid(own) => own.serialize(encoder),
            SimpleValue::Binary(own) => own.serialize(encoder),
            SimpleValue::String(own) => own.serialize(encoder),
            SimpleValue::Symbol(own) => own.serialize(encoder),
            SimpleValue::Described(own) => own.serialize(encoder),
        }
    }

    fn in_type(&self) {
        match self {
            SimpleValue::Null => {}
            SimpleValue::Bool(own) => own.in_type(),
            SimpleValue::Ubyte(own) => own.in_type(),
            SimpleValue::Ushort(own) => own.in_type(),
            SimpleValue::Uint(own) => own.in_type(),
            SimpleValue::Ulong(own) => own.in_type(),
            SimpleValue::Byte(own) => own.in_type(),
            SimpleValue::Short(own) => own.in_type(),
            SimpleValue::Int(own) => own.in_type(),
            SimpleValue::Long(own) => own.in_type(),
            SimpleValue::Decimal32(own) => own.in_type(),
            SimpleValue::Decimal64(own) => own.in_type(),
            SimpleValue::Decimal128(own) => own.in_type(),
            SimpleValue::Char(own) => own.in_type(),
            SimpleValue::Timestamp(own) => own.in_type(),
            SimpleValue::Uuid(own) => own.in_type(),
            SimpleValue::Binary(own) => own.in_type(),
            SimpleValue::String(own) => own.in_type(),
            SimpleValue::Symbol(own) => own.in_type(),
            SimpleValue::Described(own) => own.in_type(),
        }
    }
}

impl SerializeTerm for SimpleValue {
    fn is_null(&self) -> bool {
        matches!(self, SimpleValue::Null)
    }

    ghost is_term = { λ v. refl };
}
