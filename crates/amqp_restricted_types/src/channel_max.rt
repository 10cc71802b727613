//! The greatest number of a channel (Part 2, section 2.7.1).
ghost use Rattle.std.specs.Prelude.{◌≡◌, refl};
ghost use Rattle.amqp_codec.specs.Agreement.{one_term, agreement, writing_of};
ghost use Rattle.amqp_restricted_types.specs.Transport.{channel_max_type};

use amqp_codec::{
    ByteSource, Decoder, DeserializeTerm, Encoder, Error, Pass, Serialize, SerializeTerm,
};
use std::alloc::Global;

/// The greatest channel number that may be used on a connection. The default, 65,535, is the greatest possible.
#[derive(Clone, Debug, PartialEq, Eq, Drop)]
pub struct ChannelMax(pub u16);

impl Default for ChannelMax {
    ghost is_default = { λ max. max.0 ≡ 65535 };

    fn default() -> ChannelMax {
        ChannelMax(u16::MAX)
    }
}

impl From<u16> for ChannelMax {
    ghost from_gives = { λ number max. max.0 ≡ number };

    fn from(number: u16) -> ChannelMax {
        ChannelMax(number)
    }
}

impl From<ChannelMax> for u16 {
    ghost from_gives = { λ max number. number ≡ max.0 };

    fn from(max: ChannelMax) -> u16 {
        max.0
    }
}

impl Serialize for ChannelMax {
    ghost writing = { writing_of channel_max_type refl };

    fn serialize<P: Pass>(&self, encoder: &mut Encoder<P>) -> Result<(), Error> {
        encoder.write_ushort(self.0)
    }

    fn in_type(&self) {
        let _number = self.0;
    }
}

impl SerializeTerm for ChannelMax {
    fn is_null(&self) -> bool {
        false
    }

    ghost is_term = { one_term channel_max_type refl };
}

impl DeserializeTerm for ChannelMax {
    ghost term = { channel_max_type };

    fn read_value<R: ByteSource>(
        decoder: &mut Decoder<R>,
        _alloc: Global,
    ) -> Result<ChannelMax, Error> {
        Ok(ChannelMax(decoder.read_ushort()?))
    }

    ghost agreement = { agreement channel_max_type refl };
}
