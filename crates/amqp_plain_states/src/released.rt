//! The released outcome (Part 3, section 3.4.4).
ghost use Rattle.amqp_sums.specs.Types.{composite, has_none, names_of, one_term, refl, agreement, writing_of};
ghost use Rattle.amqp_plain_states.specs.Tables.{released};

use amqp_codec::kernel::{Composite, Fieldless, write_composite};
use amqp_codec::{Encoder, Error, Pass, Serialize, SerializeTerm};

/// The delivery was not and will not be processed. Its message may be delivered again.
#[derive(Clone, Debug, PartialEq, Eq, Drop)]
pub struct Released {}

impl Released {
    /// The code and the name of its descriptor.
    pub const DESCRIPTOR: (u64, &'static str) = (0x26, "amqp:released:list");
}

impl Fieldless for Released {
    ghost table = { released };

    ghost no_fields = { has_none _ };

    fn value() -> Released {
        Released {}
    }
}

impl Serialize for Released {
    ghost writing = { writing_of (composite released) refl };

    fn serialize<P: Pass>(&self, encoder: &mut Encoder<P>) -> Result<(), Error> {
        write_composite(self, Released::DESCRIPTOR.0, encoder)
    }

    fn in_type(&self) {}
}

impl SerializeTerm for Released {
    fn is_null(&self) -> bool {
        false
    }

    ghost is_term = { one_term (composite released) refl };
}

impl Composite for Released {
    ghost names = { names_of released };

    fn descriptor() -> (u64, &'static str) {
        Released::DESCRIPTOR
    }

    ghost agrees = { agreement (composite released) refl };
}
