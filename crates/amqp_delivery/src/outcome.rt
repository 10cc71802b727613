//! The outcome of a delivery (Part 3, section 3.4).
ghost use Rattle.std.specs.Prelude.{◌≡◌};
ghost use Rattle.amqp_sums.specs.Choices.{sum_one, sum_agreement, sum_writing};
ghost use Rattle.amqp_delivery.specs.Members.{as_state};
ghost use Rattle.amqp_delivery.specs.Tables.{outcome, outcomes};

use crate::{DeliveryState, Modified, Rejected};
use amqp_codec::{
    ByteSource, Decoder, DeserializeTerm, Encoder, Error, Pass, Serialize, SerializeTerm,
};
use amqp_plain_states::{Accepted, Declared, Released};
use amqp_sums::{Sum, is_null_sum, read_as, read_sum, write_as};
use std::alloc::Global;

/// The outcome of a delivery: a state in which it ends. Any other descriptor is refused with `WrongDescriptor`.
#[derive(Clone, Debug, PartialEq, Eq, Drop)]
pub enum Outcome {
    Accepted(Accepted),
    Rejected(Rejected),
    Released(Released),
    Modified(Modified),
    Declared(Declared),
}

impl From<Accepted> for Outcome {
    ghost use Rattle.amqp_delivery.specs.declared.outcome.Outcome.TheVariants as outcome;

    ghost from_gives = { λ member sum. sum ≡ outcome.Accepted member };

    fn from(accepted: Accepted) -> Outcome {
        Outcome::Accepted(accepted)
    }
}

impl From<Rejected> for Outcome {
    ghost use Rattle.amqp_delivery.specs.declared.outcome.Outcome.TheVariants as outcome;

    ghost from_gives = { λ member sum. sum ≡ outcome.Rejected member };

    fn from(rejected: Rejected) -> Outcome {
        Outcome::Rejected(rejected)
    }
}

impl From<Released> for Outcome {
    ghost use Rattle.amqp_delivery.specs.declared.outcome.Outcome.TheVariants as outcome;

    ghost from_gives = { λ member sum. sum ≡ outcome.Released member };

    fn from(released: Released) -> Outcome {
        Outcome::Released(released)
    }
}

impl From<Modified> for Outcome {
    ghost use Rattle.amqp_delivery.specs.declared.outcome.Outcome.TheVariants as outcome;

    ghost from_gives = { λ member sum. sum ≡ outcome.Modified member };

    fn from(modified: Modified) -> Outcome {
        Outcome::Modified(modified)
    }
}

impl From<Declared> for Outcome {
    ghost use Rattle.amqp_delivery.specs.declared.outcome.Outcome.TheVariants as outcome;

    ghost from_gives = { λ member sum. sum ≡ outcome.Declared member };

    fn from(declared: Declared) -> Outcome {
        Outcome::Declared(declared)
    }
}

impl From<Outcome> for DeliveryState {
    ghost from_gives = { λ outcome state. state ≡ as_state outcome };

    fn from(outcome: Outcome) -> DeliveryState {
        match outcome {
            Outcome::Accepted(accepted) => DeliveryState::Accepted(accepted),
            Outcome::Rejected(rejected) => DeliveryState::Rejected(rejected),
            Outcome::Released(released) => DeliveryState::Released(released),
            Outcome::Modified(modified) => DeliveryState::Modified(modified),
            Outcome::Declared(declared) => DeliveryState::Declared(declared),
        }
    }
}

impl Sum for Outcome {
    ghost sum = { outcomes };

    fn descriptors() -> &'static [(u64, &'static str)] {
        &[
            Accepted::DESCRIPTOR,
            Rejected::DESCRIPTOR,
            Released::DESCRIPTOR,
            Modified::DESCRIPTOR,
            Declared::DESCRIPTOR,
        ]
    }

    fn read_member<R: ByteSource>(
        place: usize,
        decoder: &mut Decoder<R>,
        alloc: Global,
    ) -> Result<Outcome, Error> {
        match place {
            0 => read_as::<Accepted, _, _>(decoder, alloc),
            1 => read_as::<Rejected, _, _>(decoder, alloc),
            2 => read_as::<Released, _, _>(decoder, alloc),
            3 => read_as::<Modified, _, _>(decoder, alloc),
            4 => read_as::<Declared, _, _>(decoder, alloc),
            _ => Err(decoder.refuse(Error::WrongDescriptor)),
        }
    }
}

impl Serialize for Outcome {
    ghost writing = { sum_writing outcomes };

    fn serialize<P: Pass>(&self, encoder: &mut Encoder<P>) -> Result<(), Error> {
        match self {
            Outcome::Accepted(accepted) => write_as(self, accepted, encoder),
            Outcome::Rejected(rejected) => write_as(self, rejected, encoder),
            Outcome::Released(released) => write_as(self, released, encoder),
            Outcome::Modified(modified) => write_as(self, modified, encoder),
            Outcome::Declared(declared) => write_as(self, declared, encoder),
        }
    }

    fn in_type(&self) {
        match self {
            Outcome::Accepted(accepted) => accepted.in_type(),
            Outcome::Rejected(rejected) => rejected.in_type(),
            Outcome::Released(released) => released.in_type(),
            Outcome::Modified(modified) => modified.in_type(),
            Outcome::Declared(declared) => declared.in_type(),
        }
    }
}

impl SerializeTerm for Outcome {
    fn is_null(&self) -> bool {
        is_null_sum(self)
    }

    ghost is_term = { sum_one outcomes };
}

impl DeserializeTerm for Outcome {
    ghost term = { outcome };

    fn read_value<R: ByteSource>(
        decoder: &mut Decoder<R>,
        alloc: Global,
    ) -> Result<Outcome, Error> {
        read_sum(decoder, alloc)
    }

    ghost agreement = { sum_agreement outcomes };
}
