//! The accepted outcome (Part 3, section 3.4.2).
ghost use Rattle.amqp_sums.specs.Types.{composite, has_none, names_of, one_term, refl, agreement, writing_of};
ghost use Rattle.amqp_plain_states.specs.Tables.{accepted};

use amqp_codec::kernel::{Composite, Fieldless, write_composite};
use amqp_codec::{Encoder, Error, Pass, Serialize, SerializeTerm};

/// The delivery was processed successfully.
#[derive(Clone, Debug, PartialEq, Eq, Drop)]
pub struct Accepted {}

impl Accepted {
    /// The code and the name of its descriptor.
    pub const DESCRIPTOR: (u64, &'static str) = (0x24, "amqp:accepted:list");
}

impl Fieldless for Accepted {
    ghost table = { accepted };

    ghost no_fields = { has_none _ };

    fn value() -> Accepted {
        Accepted {}
    }
}

impl Serialize for Accepted {
    ghost writing = { writing_of (composite accepted) refl };

    fn serialize<P: Pass>(&self, encoder: &mut Encoder<P>) -> Result<(), Error> {
        write_composite(self, Accepted::DESCRIPTOR.0, encoder)
    }

    fn in_type(&self) {}
}

impl SerializeTerm for Accepted {
    fn is_null(&self) -> bool {
        false
    }

    ghost is_term = { one_term (composite accepted) refl };
}

impl Composite for Accepted {
    ghost names = { names_of accepted };

    fn descriptor() -> (u64, &'static str) {
        Accepted::DESCRIPTOR
    }

    ghost agrees = { agreement (composite accepted) refl };
}
