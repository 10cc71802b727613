//! How long a node lives that was made for a link (Part 3, sections 3.5.10 to 3.5.13).
ghost use Rattle.std.specs.Prelude.{◌≡◌};
ghost use Rattle.amqp_sums.specs.Choices.{sum_one, sum_agreement, sum_writing};
ghost use Rattle.amqp_lifetimes.specs.Tables.{lifetime_policy, lifetime_policies};

use crate::{DeleteOnClose, DeleteOnNoLinks, DeleteOnNoLinksOrMessages, DeleteOnNoMessages};
use amqp_codec::{
    ByteSource, Decoder, DeserializeTerm, Encoder, Error, Pass, Serialize, SerializeTerm,
};
use amqp_sums::{Sum, is_null_sum, read_as, read_sum, write_as};
use std::alloc::Global;

/// How long a node lives that was made for a link. Any other descriptor is refused with `WrongDescriptor`.
#[derive(Clone, Debug, PartialEq, Eq, Drop)]
pub enum LifetimePolicy {
    DeleteOnClose(DeleteOnClose),
    DeleteOnNoLinks(DeleteOnNoLinks),
    DeleteOnNoMessages(DeleteOnNoMessages),
    DeleteOnNoLinksOrMessages(DeleteOnNoLinksOrMessages),
}

impl From<DeleteOnClose> for LifetimePolicy {
    ghost use Rattle.amqp_lifetimes.specs.declared.lifetime_policy.LifetimePolicy.TheVariants as policy;

    ghost from_gives = { λ member sum. sum ≡ policy.DeleteOnClose member };

    fn from(lifetime: DeleteOnClose) -> LifetimePolicy {
        LifetimePolicy::DeleteOnClose(lifetime)
    }
}

impl From<DeleteOnNoLinks> for LifetimePolicy {
    ghost use Rattle.amqp_lifetimes.specs.declared.lifetime_policy.LifetimePolicy.TheVariants as policy;

    ghost from_gives = { λ member sum. sum ≡ policy.DeleteOnNoLinks member };

    fn from(lifetime: DeleteOnNoLinks) -> LifetimePolicy {
        LifetimePolicy::DeleteOnNoLinks(lifetime)
    }
}

impl From<DeleteOnNoMessages> for LifetimePolicy {
    ghost use Rattle.amqp_lifetimes.specs.declared.lifetime_policy.LifetimePolicy.TheVariants as policy;

    ghost from_gives = { λ member sum. sum ≡ policy.DeleteOnNoMessages member };

    fn from(lifetime: DeleteOnNoMessages) -> LifetimePolicy {
        LifetimePolicy::DeleteOnNoMessages(lifetime)
    }
}

impl From<DeleteOnNoLinksOrMessages> for LifetimePolicy {
    ghost use Rattle.amqp_lifetimes.specs.declared.lifetime_policy.LifetimePolicy.TheVariants as policy;

    ghost from_gives = { λ member sum. sum ≡ policy.DeleteOnNoLinksOrMessages member };

    fn from(lifetime: DeleteOnNoLinksOrMessages) -> LifetimePolicy {
        LifetimePolicy::DeleteOnNoLinksOrMessages(lifetime)
    }
}

impl Sum for LifetimePolicy {
    ghost sum = { lifetime_policies };

    fn descriptors() -> &'static [(u64, &'static str)] {
        &[
            DeleteOnClose::DESCRIPTOR,
            DeleteOnNoLinks::DESCRIPTOR,
            DeleteOnNoMessages::DESCRIPTOR,
            DeleteOnNoLinksOrMessages::DESCRIPTOR,
        ]
    }

    fn read_member<R: ByteSource>(
        place: usize,
        decoder: &mut Decoder<R>,
        alloc: Global,
    ) -> Result<LifetimePolicy, Error> {
        match place {
            0 => read_as::<DeleteOnClose, _, _>(decoder, alloc),
            1 => read_as::<DeleteOnNoLinks, _, _>(decoder, alloc),
            2 => read_as::<DeleteOnNoMessages, _, _>(decoder, alloc),
            3 => read_as::<DeleteOnNoLinksOrMessages, _, _>(decoder, alloc),
            _ => Err(decoder.refuse(Error::WrongDescriptor)),
        }
    }
}

impl Serialize for LifetimePolicy {
    ghost writing = { sum_writing lifetime_policies };

    fn serialize<P: Pass>(&self, encoder: &mut Encoder<P>) -> Result<(), Error> {
        match self {
            LifetimePolicy::DeleteOnClose(lifetime) => write_as(self, lifetime, encoder),
            LifetimePolicy::DeleteOnNoLinks(lifetime) => write_as(self, lifetime, encoder),
            LifetimePolicy::DeleteOnNoMessages(lifetime) => write_as(self, lifetime, encoder),
            LifetimePolicy::DeleteOnNoLinksOrMessages(lifetime) => write_as(
                self, lifetime, encoder,
            ),
        }
    }

    fn in_type(&self) {
        match self {
            LifetimePolicy::DeleteOnClose(lifetime) => lifetime.in_type(),
            LifetimePolicy::DeleteOnNoLinks(lifetime) => lifetime.in_type(),
            LifetimePolicy::DeleteOnNoMessages(lifetime) => lifetime.in_type(),
            LifetimePolicy::DeleteOnNoLinksOrMessages(lifetime) => lifetime.in_type(),
        }
    }
}

impl SerializeTerm for LifetimePolicy {
    fn is_null(&self) -> bool {
        is_null_sum(self)
    }

    ghost is_term = { sum_one lifetime_policies };
}

impl DeserializeTerm for LifetimePolicy {
    ghost term = { lifetime_policy };

    fn read_value<R: ByteSource>(
        decoder: &mut Decoder<R>,
        alloc: Global,
    ) -> Result<LifetimePolicy, Error> {
        read_sum(decoder, alloc)
    }

    ghost agreement = { sum_agreement lifetime_policies };
}
