//! A type of a user's own, which is a sum by kind: an identifier, which is a ulong or a symbol.
ghost use Rattle.std.specs.Prelude.{refl};
ghost use Rattle.amqp_codec.specs.Agreement.{one_term, agreement, writing_of};
ghost use Rattle.amqp_user_types.specs.IdentifierType.{identifier_type};

use amqp_wire::format_code;
use fe2o3_amqp_types::codec::{
    ByteSource, Decoder, DeserializeTerm, Encoder, Error, Pass, Serialize, SerializeTerm, Symbol,
};
use std::alloc::Global;

/// An identifier: a number or a name, as its first code determines.
#[derive(Clone, Debug, PartialEq, Eq, Drop)]
pub enum Identifier {
    Number(u64),
    Name(Symbol),
}

impl Serialize for Identifier {
    ghost writing = { writing_of identifier_type refl };

    fn serialize<P: Pass>(&self, encoder: &mut Encoder<P>) -> Result<(), Error> {
        match self {
            Identifier::Number(number) => number.serialize(encoder),
            Identifier::Name(name) => name.serialize(encoder),
        }
    }

    fn in_type(&self) {
        match self {
            Identifier::Number(number) => number.in_type(),
            Identifier::Name(name) => name.in_type(),
        }
    }
}

impl SerializeTerm for Identifier {
    fn is_null(&self) -> bool {
        false
    }

    ghost is_term = { one_term identifier_type refl };
}

impl DeserializeTerm for Identifier {
    ghost term = { identifier_type };

    fn read_value<R: ByteSource>(
        decoder: &mut Decoder<R>,
        alloc: Global,
    ) -> Result<Identifier, Error> {
        match decoder.peek_code()? {
            format_code::ULONG_0 | format_code::SMALL_ULONG | format_code::ULONG => {
                Ok(Identifier::Number(u64::read_value(decoder, alloc)?))
            }
            _ => Ok(Identifier::Name(Symbol::read_value(decoder, alloc)?)),
        }
    }

    ghost agreement = { agreement identifier_type refl };
}
