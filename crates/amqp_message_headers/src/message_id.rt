//! Identifiers of messages (Part 3, sections 3.2.11 to 3.2.14).
ghost use Rattle.std.specs.Prelude.{◌≡◌, refl};
ghost use Rattle.amqp_codec.specs.Agreement.{one_term, agreement, writing_of};
ghost use Rattle.amqp_codec.specs.laws.Key.{key_of};
ghost use Rattle.amqp_kinds.specs.KindSumType.{kind_sum_type};
ghost use Rattle.amqp_message_headers.specs.declared.message_id.MessageId.TheVariants as id;
ghost use Rattle.amqp_message_headers.specs.laws.MessageIdKey.{ids_decide};
ghost use Rattle.amqp_message_headers.specs.MessageIds.{message_ids};

use amqp_codec::{
    ByteSource, Decoder, DeserializeTerm, Encoder, Error, MapKey, Pass, Serialize, SerializeTerm,
};
use amqp_kinds::{Kind, KindSum, read_as, read_kind_sum};
use amqp_primitives::{Binary, Uuid};
use std::alloc::Global;

/// The identifier of a message, of one of four types, as its first code determines. Any other type is refused with `WrongType`.
#[derive(Clone, Debug, PartialEq, Eq, PartialOrd, Ord, Hash, Drop)]
pub enum MessageId {
    /// A number (Part 3, section 3.2.11).
    Ulong(u64),
    /// A universally unique identifier (Part 3, section 3.2.12).
    Uuid(Uuid),
    /// Bytes (Part 3, section 3.2.13).
    Binary(Binary),
    /// A text (Part 3, section 3.2.14).
    String(String),
}

impl From<u64> for MessageId {
    ghost from_gives = { λ own value. value ≡ id.Ulong own };

    fn from(own: u64) -> MessageId {
        MessageId::Ulong(own)
    }
}

impl From<Uuid> for MessageId {
    ghost from_gives = { λ own value. value ≡ id.Uuid own };

    fn from(own: Uuid) -> MessageId {
        MessageId::Uuid(own)
    }
}

impl From<Binary> for MessageId {
    ghost from_gives = { λ own value. value ≡ id.Binary own };

    fn from(own: Binary) -> MessageId {
        MessageId::Binary(own)
    }
}

impl From<String> for MessageId {
    ghost from_gives = { λ own value. value ≡ id.String own };

    fn from(own: String) -> MessageId {
        MessageId::String(own)
    }
}

impl KindSum for MessageId {
    ghost sum = { message_ids };

    fn read_member<R: ByteSource>(
        kind: Kind,
        decoder: &mut Decoder<R>,
        alloc: Global,
    ) -> Result<MessageId, Error> {
        match kind {
            Kind::Ulong => read_as::<u64, _, _>(decoder, alloc),
            Kind::Uuid => read_as::<Uuid, _, _>(decoder, alloc),
            Kind::Binary => read_as::<Binary, _, _>(decoder, alloc),
            _ => read_as::<String, _, _>(decoder, alloc),
        }
    }
}

impl Serialize for MessageId {
    ghost writing = { writing_of (kind_sum_type message_ids) refl };

    fn serialize<P: Pass>(&self, encoder: &mut Encoder<P>) -> Result<(), Error> {
        match self {
            MessageId::Ulong(number) => number.serialize(encoder),
            MessageId::Uuid(identifier) => identifier.serialize(encoder),
            MessageId::Binary(bytes) => bytes.serialize(encoder),
            MessageId::String(text) => text.serialize(encoder),
        }
    }

    fn in_type(&self) {
        match self {
            MessageId::Ulong(number) => number.in_type(),
            MessageId::Uuid(identifier) => identifier.in_type(),
            MessageId::Binary(bytes) => bytes.in_type(),
            MessageId::String(text) => text.in_type(),
        }
    }
}

impl SerializeTerm for MessageId {
    fn is_null(&self) -> bool {
        false
    }

    ghost is_term = { one_term (kind_sum_type message_ids) refl };
}

impl DeserializeTerm for MessageId {
    ghost term = { kind_sum_type message_ids };

    fn read_value<R: ByteSource>(
        decoder: &mut Decoder<R>,
        alloc: Global,
    ) -> Result<MessageId, Error> {
        read_kind_sum(decoder, alloc)
    }

    ghost agreement = { agreement (kind_sum_type message_ids) refl };
}

impl MapKey for MessageId {
    ghost is_key = { key_of refl ids_decide };
}
