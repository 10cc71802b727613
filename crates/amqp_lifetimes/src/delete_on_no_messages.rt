//! Lifetime of a node: delete on no messages (Part 3, section 3.5.12).
ghost use Rattle.amqp_sums.specs.Types.{composite, has_none, names_of, one_term, refl, agreement, writing_of};
ghost use Rattle.amqp_lifetimes.specs.Tables.{delete_on_no_messages};

use amqp_codec::kernel::{Composite, Fieldless, write_composite};
use amqp_codec::{Encoder, Error, Pass, Serialize, SerializeTerm};

/// The node lives until there is no message on it.
#[derive(Clone, Debug, PartialEq, Eq, Default, Drop)]
pub struct DeleteOnNoMessages {}

impl DeleteOnNoMessages {
    /// The code and the name of its descriptor.
    pub const DESCRIPTOR: (u64, &'static str) = (0x2d, "amqp:delete-on-no-messages:list");

    /// Returns the lifetime.
    pub fn new() -> DeleteOnNoMessages {
        DeleteOnNoMessages {}
    }
}

impl Fieldless for DeleteOnNoMessages {
    ghost table = { delete_on_no_messages };

    ghost no_fields = { has_none _ };

    fn value() -> DeleteOnNoMessages {
        DeleteOnNoMessages {}
    }
}

impl Serialize for DeleteOnNoMessages {
    ghost writing = { writing_of (composite delete_on_no_messages) refl };

    fn serialize<P: Pass>(&self, encoder: &mut Encoder<P>) -> Result<(), Error> {
        write_composite(self, DeleteOnNoMessages::DESCRIPTOR.0, encoder)
    }

    fn in_type(&self) {}
}

impl SerializeTerm for DeleteOnNoMessages {
    fn is_null(&self) -> bool {
        false
    }

    ghost is_term = { one_term (composite delete_on_no_messages) refl };
}

impl Composite for DeleteOnNoMessages {
    ghost names = { names_of delete_on_no_messages };

    fn descriptor() -> (u64, &'static str) {
        DeleteOnNoMessages::DESCRIPTOR
    }

    ghost agrees = { agreement (composite delete_on_no_messages) refl };
}
