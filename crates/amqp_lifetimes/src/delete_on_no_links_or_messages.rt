//! Lifetime of a node: delete on no links or messages (Part 3, section 3.5.13).
ghost use Rattle.amqp_sums.specs.Types.{composite, has_none, names_of, one_term, refl, agreement, writing_of};
ghost use Rattle.amqp_lifetimes.specs.Tables.{delete_on_no_links_or_messages};

use amqp_codec::kernel::{Composite, Fieldless, write_composite};
use amqp_codec::{Encoder, Error, Pass, Serialize, SerializeTerm};

/// The node lives until there is neither a link to it nor a message on it.
#[derive(Clone, Debug, PartialEq, Eq, Default, Drop)]
pub struct DeleteOnNoLinksOrMessages {}

impl DeleteOnNoLinksOrMessages {
    /// The code and the name of its descriptor.
    pub const DESCRIPTOR: (u64, &'static str) = (0x2e, "amqp:delete-on-no-links-or-messages:list");

    /// Returns the lifetime.
    pub fn new() -> DeleteOnNoLinksOrMessages {
        DeleteOnNoLinksOrMessages {}
    }
}

impl Fieldless for DeleteOnNoLinksOrMessages {
    ghost table = { delete_on_no_links_or_messages };

    ghost no_fields = { has_none _ };

    fn value() -> DeleteOnNoLinksOrMessages {
        DeleteOnNoLinksOrMessages {}
    }
}

impl Serialize for DeleteOnNoLinksOrMessages {
    ghost writing = { writing_of (composite delete_on_no_links_or_messages) refl };

    fn serialize<P: Pass>(&self, encoder: &mut Encoder<P>) -> Result<(), Error> {
        write_composite(self, DeleteOnNoLinksOrMessages::DESCRIPTOR.0, encoder)
    }

    fn in_type(&self) {}
}

impl SerializeTerm for DeleteOnNoLinksOrMessages {
    fn is_null(&self) -> bool {
        false
    }

    ghost is_term = { one_term (composite delete_on_no_links_or_messages) refl };
}

impl Composite for DeleteOnNoLinksOrMessages {
    ghost names = { names_of delete_on_no_links_or_messages };

    fn descriptor() -> (u64, &'static str) {
        DeleteOnNoLinksOrMessages::DESCRIPTOR
    }

    ghost agrees = { agreement (composite delete_on_no_links_or_messages) refl };
}
