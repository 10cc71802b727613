//! What part of a terminus is durable (Part 3, section 3.5.5).
ghost use Rattle.std.specs.Prelude.{refl};
ghost use Rattle.amqp_codec.specs.Agreement.{one_term, agreement, writing_of};
ghost use Rattle.amqp_codec.specs.laws.Key.{key_of, variants_decide};
ghost use Rattle.amqp_restricted_types.specs.Termini.{terminus_durability_numbers, terminus_durability_type};
ghost use Rattle.amqp_restricted_types.specs.contracts.terminus_durability.TerminusDurability.{the_type};

use amqp_codec::{
    ByteSource, Decoder, DeserializeTerm, Encoder, Error, MapKey, Pass, Serialize, SerializeTerm,
};
use amqp_sums::restricted::{RestrictedNumber, read_number, write_number};
use std::alloc::Global;

/// What part of a terminus is kept durably.
#[derive(Clone, Debug, PartialEq, Eq, Hash, Default, Drop)]
pub enum TerminusDurability {
    /// Nothing; the default: 0.
    #[default]
    None,
    /// That it exists, and its configuration: 1.
    Configuration,
    /// These, and the state of unsettled deliveries of durable messages: 2.
    UnsettledState,
}

impl RestrictedNumber for TerminusDurability {
    type Number = u32;

    ghost numbers = { terminus_durability_numbers };

    fn number(&self) -> u32 {
        match self {
            TerminusDurability::None => 0,
            TerminusDurability::Configuration => 1,
            TerminusDurability::UnsettledState => 2,
        }
    }

    fn from_number(number: u32) -> Option<TerminusDurability> {
        match number {
            0 => Some(TerminusDurability::None),
            1 => Some(TerminusDurability::Configuration),
            2 => Some(TerminusDurability::UnsettledState),
            _ => None,
        }
    }
}

impl Serialize for TerminusDurability {
    ghost writing = { writing_of terminus_durability_type refl };

    fn serialize<P: Pass>(&self, encoder: &mut Encoder<P>) -> Result<(), Error> {
        write_number(self, encoder)
    }

    fn in_type(&self) {}
}

impl SerializeTerm for TerminusDurability {
    fn is_null(&self) -> bool {
        false
    }

    ghost is_term = { one_term terminus_durability_type refl };
}

impl DeserializeTerm for TerminusDurability {
    ghost term = { terminus_durability_type };

    fn read_value<R: ByteSource>(
        decoder: &mut Decoder<R>,
        _alloc: Global,
    ) -> Result<TerminusDurability, Error> {
        read_number(decoder)
    }

    ghost agreement = { agreement terminus_durability_type refl };
}

impl MapKey for TerminusDurability {
    ghost is_key = { key_of refl (variants_decide the_type tt) };
}
