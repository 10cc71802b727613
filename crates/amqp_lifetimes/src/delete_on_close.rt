//! Lifetime of a node: delete on close (Part 3, section 3.5.10).
ghost use Rattle.amqp_sums.specs.Types.{composite, has_none, names_of, one_term, refl, agreement, writing_of};
ghost use Rattle.amqp_lifetimes.specs.Tables.{delete_on_close};

use amqp_codec::kernel::{Composite, Fieldless, write_composite};
use amqp_codec::{Encoder, Error, Pass, Serialize, SerializeTerm};

/// The node lives until the link for which it was made is closed.
#[derive(Clone, Debug, PartialEq, Eq, Default, Drop)]
pub struct DeleteOnClose {}

impl DeleteOnClose {
    /// The code and the name of its descriptor.
    pub const DESCRIPTOR: (u64, &'static str) = (0x2b, "amqp:delete-on-close:list");

    /// Returns the lifetime.
    pub fn new() -> DeleteOnClose {
        DeleteOnClose {}
    }
}

impl Fieldless for DeleteOnClose {
    ghost table = { delete_on_close };

    ghost no_fields = { has_none _ };

    fn value() -> DeleteOnClose {
        DeleteOnClose {}
    }
}

impl Serialize for DeleteOnClose {
    ghost writing = { writing_of (composite delete_on_close) refl };

    fn serialize<P: Pass>(&self, encoder: &mut Encoder<P>) -> Result<(), Error> {
        write_composite(self, DeleteOnClose::DESCRIPTOR.0, encoder)
    }

    fn in_type(&self) {}
}

impl SerializeTerm for DeleteOnClose {
    fn is_null(&self) -> bool {
        false
    }

    ghost is_term = { one_term (composite delete_on_close) refl };
}

impl Composite for DeleteOnClose {
    ghost names = { names_of delete_on_close };

    fn descriptor() -> (u64, &'static str) {
        DeleteOnClose::DESCRIPTOR
    }

    ghost agrees = { agreement (composite delete_on_close) refl };
}
