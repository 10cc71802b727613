//! How a sender settles deliveries (Part 2, section 2.8.2).
ghost use Rattle.std.specs.Prelude.{◌≡◌, refl};
ghost use Rattle.amqp_codec.specs.Agreement.{one_term, agreement, writing_of};
ghost use Rattle.amqp_codec.specs.laws.Key.{key_of, variants_decide};
ghost use Rattle.amqp_restricted_types.specs.Transport.{sender_settle_mode_numbers, sender_settle_mode_type};
ghost use Rattle.amqp_restricted_types.specs.contracts.sender_settle_mode.SenderSettleMode.{the_type};

use amqp_codec::{
    ByteSource, Decoder, DeserializeTerm, Encoder, Error, MapKey, Pass, Serialize, SerializeTerm,
};
use amqp_sums::restricted::{RestrictedNumber, read_number, write_number};
use std::alloc::Global;

/// How the sender of a link settles its deliveries.
#[derive(Clone, Debug, PartialEq, Eq, Hash, Default, Drop)]
pub enum SenderSettleMode {
    /// It sends all of them unsettled: 0.
    Unsettled,
    /// It sends all of them settled: 1.
    Settled,
    /// It sends some settled and some unsettled; the default: 2.
    #[default]
    Mixed,
}

impl From<&SenderSettleMode> for u8 {
    ghost from_gives = { λ mode number. number ≡ sender_settle_mode_numbers mode.now };

    fn from(mode: &SenderSettleMode) -> u8 {
        match mode {
            SenderSettleMode::Unsettled => 0,
            SenderSettleMode::Settled => 1,
            SenderSettleMode::Mixed => 2,
        }
    }
}

impl From<SenderSettleMode> for u8 {
    ghost from_gives = { λ mode number. number ≡ sender_settle_mode_numbers mode };

    fn from(mode: SenderSettleMode) -> u8 {
        u8::from(&mode)
    }
}

impl RestrictedNumber for SenderSettleMode {
    type Number = u8;

    ghost numbers = { sender_settle_mode_numbers };

    fn number(&self) -> u8 {
        u8::from(self)
    }

    fn from_number(number: u8) -> Option<SenderSettleMode> {
        match number {
            0 => Some(SenderSettleMode::Unsettled),
            1 => Some(SenderSettleMode::Settled),
            2 => Some(SenderSettleMode::Mixed),
            _ => None,
        }
    }
}

impl Serialize for SenderSettleMode {
    ghost writing = { writing_of sender_settle_mode_type refl };

    #[inline(always)]
    fn serialize<P: Pass>(&self, encoder: &mut Encoder<P>) -> Result<(), Error> {
        write_number(self, encoder)
    }

    fn in_type(&self) {}
}

impl SerializeTerm for SenderSettleMode {
    fn is_null(&self) -> bool {
        false
    }

    ghost is_term = { one_term sender_settle_mode_type refl };
}

impl DeserializeTerm for SenderSettleMode {
    ghost term = { sender_settle_mode_type };

    fn read_value<R: ByteSource>(
        decoder: &mut Decoder<R>,
        _alloc: Global,
    ) -> Result<SenderSettleMode, Error> {
        read_number(decoder)
    }

    ghost agreement = { agreement sender_settle_mode_type refl };
}

impl MapKey for SenderSettleMode {
    ghost is_key = { key_of refl (variants_decide the_type tt) };
}
