//! The rejected outcome (Part 3, section 3.4.3).
ghost use Rattle.amqp_sums.specs.Types.{composite, fields_of, names_of, one_term, refl, agreement, writing_of};
ghost use Rattle.amqp_delivery.specs.Tables.{rejected};

use amqp_codec::kernel::{Composite, FieldList, FieldRule, write_composite};
use amqp_codec::{
    ByteSource, Decoder, Encoder, Error as CodecError, Pass, Serialize, SerializeTerm, fields,
};
use amqp_errors::Error;
use std::alloc::Global;

/// The message was not processed, and won't be.
#[derive(Clone, Debug, PartialEq, Eq, Drop)]
pub struct Rejected {
    /// Why it was not processed.
    pub error: Option<Error>,
}

// The fields, in order.
macro_rules! rejected_fields {
    ($($part:tt)*) => {
        fields! { [$($part)*]
            0 error "error" optional,
        }
    };
}

impl Rejected {
    /// The code and the name of its descriptor.
    pub const DESCRIPTOR: (u64, &'static str) = (0x25, "amqp:rejected:list");

    /// The standard's names of the fields, in order.
    pub const FIELD_NAMES: &'static [&'static str] = rejected_fields!(names);
}

impl FieldList for Rejected {
    ghost list = { fields_of rejected };

    fn field_rules() -> &'static [FieldRule] {
        rejected_fields!(rules)
    }

    fn blank(_alloc: Global) -> Rejected {
        Rejected { error: None }
    }

    #[inline(always)]
    fn fill_field<R: ByteSource>(
        &mut self,
        index: usize,
        decoder: &mut Decoder<R>,
        alloc: Global,
    ) -> Result<(), CodecError> {
        rejected_fields!(fill(self, index, decoder, alloc))
    }

    #[inline(always)]
    fn is_null_field(&self, index: usize) -> bool {
        rejected_fields!(is_null(self, index))
    }

    #[inline(always)]
    fn write_field<P: Pass>(
        &self,
        index: usize,
        encoder: &mut Encoder<P>,
    ) -> Result<(), CodecError> {
        rejected_fields!(write(self, index, encoder))
    }
}

impl Serialize for Rejected {
    ghost writing = { writing_of (composite rejected) refl };

    fn serialize<P: Pass>(&self, encoder: &mut Encoder<P>) -> Result<(), CodecError> {
        write_composite(self, Rejected::DESCRIPTOR.0, encoder)
    }

    fn in_type(&self) {
        rejected_fields!(in_type(self));
    }
}

impl SerializeTerm for Rejected {
    fn is_null(&self) -> bool {
        false
    }

    ghost is_term = { one_term (composite rejected) refl };
}

impl Composite for Rejected {
    ghost names = { names_of rejected };

    fn descriptor() -> (u64, &'static str) {
        Rejected::DESCRIPTOR
    }

    ghost agrees = { agreement (composite rejected) refl };
}
