//! The state of a delivery (Part 3, section 3.4).
ghost use Rattle.std.specs.Prelude.{◌≡◌};
ghost use Rattle.amqp_sums.specs.Choices.{sum_one, sum_agreement, sum_writing};
ghost use Rattle.amqp_delivery.specs.Tables.{delivery_state, delivery_states};

use crate::{Modified, Rejected, TransactionalState};
use amqp_codec::{
    ByteSource, Decoder, DeserializeTerm, Encoder, Error, Pass, Serialize, SerializeTerm,
};
use amqp_plain_states::{Accepted, Declared, Received, Released};
use amqp_sums::{Sum, is_null_sum, read_as, read_sum, write_as};
use std::alloc::Global;

/// The state of a delivery. Any other descriptor is refused with `WrongDescriptor`.
#[derive(Clone, Debug, PartialEq, Eq, Drop)]
pub enum DeliveryState {
    Received(Received),
    Accepted(Accepted),
    Rejected(Rejected),
    Released(Released),
    Modified(Modified),
    Declared(Declared),
    TransactionalState(TransactionalState),
}

impl From<Received> for DeliveryState {
    ghost use Rattle.amqp_delivery.specs.declared.state.DeliveryState.TheVariants as state;

    ghost from_gives = { λ member sum. sum ≡ state.Received member };

    fn from(received: Received) -> DeliveryState {
        DeliveryState::Received(received)
    }
}

impl From<Accepted> for DeliveryState {
    ghost use Rattle.amqp_delivery.specs.declared.state.DeliveryState.TheVariants as state;

    ghost from_gives = { λ member sum. sum ≡ state.Accepted member };

    fn from(accepted: Accepted) -> DeliveryState {
        DeliveryState::Accepted(accepted)
    }
}

impl From<Rejected> for DeliveryState {
    ghost use Rattle.amqp_delivery.specs.declared.state.DeliveryState.TheVariants as state;

    ghost from_gives = { λ member sum. sum ≡ state.Rejected member };

    fn from(rejected: Rejected) -> DeliveryState {
        DeliveryState::Rejected(rejected)
    }
}

impl From<Released> for DeliveryState {
    ghost use Rattle.amqp_delivery.specs.declared.state.DeliveryState.TheVariants as state;

    ghost from_gives = { λ member sum. sum ≡ state.Released member };

    fn from(released: Released) -> DeliveryState {
        DeliveryState::Released(released)
    }
}

impl From<Modified> for DeliveryState {
    ghost use Rattle.amqp_delivery.specs.declared.state.DeliveryState.TheVariants as state;

    ghost from_gives = { λ member sum. sum ≡ state.Modified member };

    fn from(modified: Modified) -> DeliveryState {
        DeliveryState::Modified(modified)
    }
}

impl From<Declared> for DeliveryState {
    ghost use Rattle.amqp_delivery.specs.declared.state.DeliveryState.TheVariants as state;

    ghost from_gives = { λ member sum. sum ≡ state.Declared member };

    fn from(declared: Declared) -> DeliveryState {
        DeliveryState::Declared(declared)
    }
}

impl From<TransactionalState> for DeliveryState {
    ghost use Rattle.amqp_delivery.specs.declared.state.DeliveryState.TheVariants as state;

    ghost from_gives = { λ member sum. sum ≡ state.TransactionalState member };

    fn from(state: TransactionalState) -> DeliveryState {
        DeliveryState::TransactionalState(state)
    }
}

impl Sum for DeliveryState {
    ghost sum = { delivery_states };

    fn descriptors() -> &'static [(u64, &'static str)] {
        &[
            Received::DESCRIPTOR,
            Accepted::DESCRIPTOR,
            Rejected::DESCRIPTOR,
            Released::DESCRIPTOR,
            Modified::DESCRIPTOR,
            Declared::DESCRIPTOR,
            TransactionalState::DESCRIPTOR,
        ]
    }

    fn read_member<R: ByteSource>(
        place: usize,
        decoder: &mut Decoder<R>,
        alloc: Global,
    ) -> Result<DeliveryState, Error> {
        match place {
            0 => read_as::<Received, _, _>(decoder, alloc),
            1 => read_as::<Accepted, _, _>(decoder, alloc),
            2 => read_as::<Rejected, _, _>(decoder, alloc),
            3 => read_as::<Released, _, _>(decoder, alloc),
            4 => read_as::<Modified, _, _>(decoder, alloc),
            5 => read_as::<Declared, _, _>(decoder, alloc),
            6 => read_as::<TransactionalState, _, _>(decoder, alloc),
            _ => Err(decoder.refuse(Error::WrongDescriptor)),
        }
    }
}

impl Serialize for DeliveryState {
    ghost writing = { sum_writing delivery_states };

    fn serialize<P: Pass>(&self, encoder: &mut Encoder<P>) -> Result<(), Error> {
        match self {
            DeliveryState::Received(received) => write_as(self, received, encoder),
            DeliveryState::Accepted(accepted) => write_as(self, accepted, encoder),
            DeliveryState::Rejected(rejected) => write_as(self, rejected, encoder),
            DeliveryState::Released(released) => write_as(self, released, encoder),
            DeliveryState::Modified(modified) => write_as(self, modified, encoder),
            DeliveryState::Declared(declared) => write_as(self, declared, encoder),
            DeliveryState::TransactionalState(state) => write_as(self, state, encoder),
        }
    }

    fn in_type(&self) {
        match self {
            DeliveryState::Received(received) => received.in_type(),
            DeliveryState::Accepted(accepted) => accepted.in_type(),
            DeliveryState::Rejected(rejected) => rejected.in_type(),
            DeliveryState::Released(released) => released.in_type(),
            DeliveryState::Modified(modified) => modified.in_type(),
            DeliveryState::Declared(declared) => declared.in_type(),
            DeliveryState::TransactionalState(state) => state.in_type(),
        }
    }
}

impl SerializeTerm for DeliveryState {
    fn is_null(&self) -> bool {
        is_null_sum(self)
    }

    ghost is_term = { sum_one delivery_states };
}

impl DeserializeTerm for DeliveryState {
    ghost term = { delivery_state };

    fn read_value<R: ByteSource>(
        decoder: &mut Decoder<R>,
        alloc: Global,
    ) -> Result<DeliveryState, Error> {
        read_sum(decoder, alloc)
    }

    ghost agreement = { sum_agreement delivery_states };
}
