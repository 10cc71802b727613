//! Lifetime of a node: delete on no links (Part 3, section 3.5.11).
ghost use Rattle.amqp_sums.specs.Types.{composite, has_none, names_of, one_term, refl, agreement, writing_of};
ghost use Rattle.amqp_lifetimes.specs.Tables.{delete_on_no_links};

use amqp_codec::kernel::{Composite, Fieldless, write_composite};
use amqp_codec::{Encoder, Error, Pass, Serialize, SerializeTerm};

/// The node lives until there is no link to it.
#[derive(Clone, Debug, PartialEq, Eq, Default, Drop)]
pub struct DeleteOnNoLinks {}

impl DeleteOnNoLinks {
    /// The code and the name of its descriptor.
    pub const DESCRIPTOR: (u64, &'static str) = (0x2c, "amqp:delete-on-no-links:list");

    /// Returns the lifetime.
    pub fn new() -> DeleteOnNoLinks {
        DeleteOnNoLinks {}
    }
}

impl Fieldless for DeleteOnNoLinks {
    ghost table = { delete_on_no_links };

    ghost no_fields = { has_none _ };

    fn value() -> DeleteOnNoLinks {
        DeleteOnNoLinks {}
    }
}

impl Serialize for DeleteOnNoLinks {
    ghost writing = { writing_of (composite delete_on_no_links) refl };

    fn serialize<P: Pass>(&self, encoder: &mut Encoder<P>) -> Result<(), Error> {
        write_composite(self, DeleteOnNoLinks::DESCRIPTOR.0, encoder)
    }

    fn in_type(&self) {}
}

impl SerializeTerm for DeleteOnNoLinks {
    fn is_null(&self) -> bool {
        false
    }

    ghost is_term = { one_term (composite delete_on_no_links) refl };
}

impl Composite for DeleteOnNoLinks {
    ghost names = { names_of delete_on_no_links };

    fn descriptor() -> (u64, &'static str) {
        DeleteOnNoLinks::DESCRIPTOR
    }

    ghost agrees = { agreement (composite delete_on_no_links) refl };
}
