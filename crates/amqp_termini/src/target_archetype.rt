//! The targets of links (Part 2, section 2.7.3; Part 4, section 4.5.1).
ghost use Rattle.std.specs.Prelude.{◌≡◌, ok_or};
ghost use Rattle.amqp_sums.specs.Choices.{sum_one, sum_agreement, sum_writing};
ghost use Rattle.amqp_termini.specs.Made.{target_at, archetype_target, archetype_coordinator};
ghost use Rattle.amqp_termini.specs.Tables.{target_archetype, target_archetypes};

use crate::{Coordinator, Target};
use amqp_codec::{
    ByteSource, Decoder, DeserializeTerm, Encoder, Error, Pass, Serialize, SerializeTerm,
};
use amqp_sums::{Sum, is_null_sum, read_as, read_sum, write_as};
use std::alloc::Global;

/// The target in an attach: a target, or a coordinator of transactions. Any other descriptor is refused with `WrongDescriptor`.
#[derive(Clone, Debug, PartialEq, Eq, Drop)]
pub enum TargetArchetype {
    Target(Target),
    Coordinator(Coordinator),
}

impl From<Target> for TargetArchetype {
    ghost use Rattle.amqp_termini.specs.declared.target_archetype.TargetArchetype.TheVariants as archetype;

    ghost from_gives = { λ member sum. sum ≡ archetype.Target member };

    fn from(target: Target) -> TargetArchetype {
        TargetArchetype::Target(target)
    }
}

impl From<Coordinator> for TargetArchetype {
    ghost use Rattle.amqp_termini.specs.declared.target_archetype.TargetArchetype.TheVariants as archetype;

    ghost from_gives = { λ member sum. sum ≡ archetype.Coordinator member };

    fn from(coordinator: Coordinator) -> TargetArchetype {
        TargetArchetype::Coordinator(coordinator)
    }
}

/// Makes the target with this address.
impl From<String> for TargetArchetype {
    ghost use Rattle.amqp_termini.specs.declared.target_archetype.TargetArchetype.TheVariants as archetype;

    ghost from_gives = { λ address sum. sum ≡ archetype.Target (target_at address) };

    fn from(address: String) -> TargetArchetype {
        TargetArchetype::Target(Target::from(address))
    }
}

/// Returns a coordinator as the error.
impl TryFrom<TargetArchetype> for Target {
    type Error = TargetArchetype;

    ghost try_from_gives = { λ sum answer. answer ≡ ok_or (archetype_target sum) sum };

    fn try_from(archetype: TargetArchetype) -> Result<Target, TargetArchetype> {
        match archetype {
            TargetArchetype::Target(target) => Ok(target),
            other => Err(other),
        }
    }
}

/// Returns a target as the error.
impl TryFrom<TargetArchetype> for Coordinator {
    type Error = TargetArchetype;

    ghost try_from_gives = { λ sum answer. answer ≡ ok_or (archetype_coordinator sum) sum };

    fn try_from(archetype: TargetArchetype) -> Result<Coordinator, TargetArchetype> {
        match archetype {
            TargetArchetype::Coordinator(coordinator) => Ok(coordinator),
            other => Err(other),
        }
    }
}

impl Sum for TargetArchetype {
    ghost sum = { target_archetypes };

    fn descriptors() -> &'static [(u64, &'static str)] {
        &[Target::DESCRIPTOR, Coordinator::DESCRIPTOR]
    }

    fn read_member<R: ByteSource>(
        place: usize,
        decoder: &mut Decoder<R>,
        alloc: Global,
    ) -> Result<TargetArchetype, Error> {
        match place {
            0 => read_as::<Target, _, _>(decoder, alloc),
            1 => read_as::<Coordinator, _, _>(decoder, alloc),
            _ => Err(decoder.refuse(Error::WrongDescriptor)),
        }
    }
}

impl Serialize for TargetArchetype {
    ghost writing = { sum_writing target_archetypes };

    fn serialize<P: Pass>(&self, encoder: &mut Encoder<P>) -> Result<(), Error> {
        match self {
            TargetArchetype::Target(target) => write_as(self, target, encoder),
            TargetArchetype::Coordinator(coordinator) => write_as(self, coordinator, encoder),
        }
    }

    fn in_type(&self) {
        match self {
            TargetArchetype::Target(target) => target.in_type(),
            TargetArchetype::Coordinator(coordinator) => coordinator.in_type(),
        }
    }
}

impl SerializeTerm for TargetArchetype {
    fn is_null(&self) -> bool {
        is_null_sum(self)
    }

    ghost is_term = { sum_one target_archetypes };
}

impl DeserializeTerm for TargetArchetype {
    ghost term = { target_archetype };

    fn read_value<R: ByteSource>(
        decoder: &mut Decoder<R>,
        alloc: Global,
    ) -> Result<TargetArchetype, Error> {
        read_sum(decoder, alloc)
    }

    ghost agreement = { sum_agreement target_archetypes };
}
