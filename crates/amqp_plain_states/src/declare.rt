//! The request for a transaction (Part 4, section 4.5.2).
ghost use Rattle.std.specs.Prelude.{◌≡◌};
ghost use Rattle.amqp_sums.specs.Types.{composite, fields_of, names_of, one_term, refl, agreement, writing_of};
ghost use Rattle.amqp_plain_states.specs.Tables.{declare};

use crate::TransactionId;
use amqp_codec::kernel::{Composite, FieldList, FieldRule, write_composite};
use amqp_codec::{ByteSource, Decoder, Encoder, Error, Pass, Serialize, SerializeTerm, fields};
use std::alloc::Global;

/// Asks the coordinator for a transaction.
#[derive(Clone, Debug, PartialEq, Eq, Drop)]
pub struct Declare {
    /// The identifier of a transaction over several resources, of which the new one is a part.
    pub global_id: Option<TransactionId>,
}

// The fields, in order.
macro_rules! declare_fields {
    ($($part:tt)*) => {
        fields! { [$($part)*]
            0 global_id "global-id" optional,
        }
    };
}

impl Declare {
    /// The code and the name of its descriptor.
    pub const DESCRIPTOR: (u64, &'static str) = (0x31, "amqp:declare:list");

    /// The standard's names of the fields, in order.
    pub const FIELD_NAMES: &'static [&'static str] = declare_fields!(names);

    /// Returns a request with this identifier.
    pub fn new(global_id: Option<TransactionId>) -> Declare
        ensures { result.global_id ≡ global_id }
    {
        Declare { global_id }
    }
}

impl FieldList for Declare {
    ghost list = { fields_of declare };

    fn field_rules() -> &'static [FieldRule] {
        declare_fields!(rules)
    }

    fn blank(_alloc: Global) -> Declare {
        Declare { global_id: None }
    }

    #[inline(always)]
    fn fill_field<R: ByteSource>(
        &mut self,
        index: usize,
        decoder: &mut Decoder<R>,
        alloc: Global,
    ) -> Result<(), Error> {
        declare_fields!(fill(self, index, decoder, alloc))
    }

    #[inline(always)]
    fn is_null_field(&self, index: usize) -> bool {
        declare_fields!(is_null(self, index))
    }

    #[inline(always)]
    fn write_field<P: Pass>(&self, index: usize, encoder: &mut Encoder<P>) -> Result<(), Error> {
        declare_fields!(write(self, index, encoder))
    }
}

impl Serialize for Declare {
    ghost writing = { writing_of (composite declare) refl };

    fn serialize<P: Pass>(&self, encoder: &mut Encoder<P>) -> Result<(), Error> {
        write_composite(self, Declare::DESCRIPTOR.0, encoder)
    }

    fn in_type(&self) {
        declare_fields!(in_type(self));
    }
}

impl SerializeTerm for Declare {
    fn is_null(&self) -> bool {
        false
    }

    ghost is_term = { one_term (composite declare) refl };
}

impl Composite for Declare {
    ghost names = { names_of declare };

    fn descriptor() -> (u64, &'static str) {
        Declare::DESCRIPTOR
    }

    ghost agrees = { agreement (composite declare) refl };
}
