//! How a receiver settles deliveries (Part 2, section 2.8.3).
ghost use Rattle.std.specs.Prelude.{◌≡◌, refl};
ghost use Rattle.amqp_codec.specs.Agreement.{one_term, agreement, writing_of};
ghost use Rattle.amqp_codec.specs.laws.Key.{key_of, variants_decide};
ghost use Rattle.amqp_restricted_types.specs.Transport.{receiver_settle_mode_numbers, receiver_settle_mode_type};
ghost use Rattle.amqp_restricted_types.specs.contracts.receiver_settle_mode.ReceiverSettleMode.{the_type};

use amqp_codec::{
    ByteSource, Decoder, DeserializeTerm, Encoder, Error, MapKey, Pass, Serialize, SerializeTerm,
};
use amqp_sums::restricted::{RestrictedNumber, read_number, write_number};
use std::alloc::Global;

/// How the receiver of a link settles its deliveries.
#[derive(Clone, Debug, PartialEq, Eq, Hash, Default, Drop)]
pub enum ReceiverSettleMode {
    /// It settles each without waiting for the sender; the default: 0.
    #[default]
    First,
    /// It settles each after the sender has: 1.
    Second,
}

impl From<&ReceiverSettleMode> for u8 {
    ghost from_gives = { λ mode number. number ≡ receiver_settle_mode_numbers mode.now };

    fn from(mode: &ReceiverSettleMode) -> u8 {
        match mode {
            ReceiverSettleMode::First => 0,
            ReceiverSettleMode::Second => 1,
        }
    }
}

impl From<ReceiverSettleMode> for u8 {
    ghost from_gives = { λ mode number. number ≡ receiver_settle_mode_numbers mode };

    fn from(mode: ReceiverSettleMode) -> u8 {
        u8::from(&mode)
    }
}

impl RestrictedNumber for ReceiverSettleMode {
    type Number = u8;

    ghost numbers = { receiver_settle_mode_numbers };

    fn number(&self) -> u8 {
        u8::from(self)
    }

    fn from_number(number: u8) -> Option<ReceiverSettleMode> {
        match number {
            0 => Some(ReceiverSettleMode::First),
            1 => Some(ReceiverSettleMode::Second),
            _ => None,
        }
    }
}

impl Serialize for ReceiverSettleMode {
    ghost writing = { writing_of receiver_settle_mode_type refl };

    #[inline(always)]
    fn serialize<P: Pass>(&self, encoder: &mut Encoder<P>) -> Result<(), Error> {
        write_number(self, encoder)
    }

    fn in_type(&self) {}
}

impl SerializeTerm for ReceiverSettleMode {
    fn is_null(&self) -> bool {
        false
    }

    ghost is_term = { one_term receiver_settle_mode_type refl };
}

impl DeserializeTerm for ReceiverSettleMode {
    ghost term = { receiver_settle_mode_type };

    fn read_value<R: ByteSource>(
        decoder: &mut Decoder<R>,
        _alloc: Global,
    ) -> Result<ReceiverSettleMode, Error> {
        read_number(decoder)
    }

    ghost agreement = { agreement receiver_settle_mode_type refl };
}

impl MapKey for ReceiverSettleMode {
    ghost is_key = { key_of refl (variants_decide the_type tt) };
}
