//! The end of a session (Part 2, section 2.7.8).
ghost use Rattle.amqp_sums.specs.Types.{composite, fields_of, names_of, one_term, refl, agreement, writing_of};
ghost use Rattle.amqp_performatives.specs.Tables.{ending};

use amqp_codec::kernel::{Composite, FieldList, FieldRule, write_composite};
use amqp_codec::{
    ByteSource, Decoder, Encoder, Error as CodecError, Pass, Serialize, SerializeTerm, fields,
};
use amqp_errors::Error;
use std::alloc::Global;

/// Ends a session.
#[derive(Clone, Debug, PartialEq, Eq, Drop)]
pub struct End {
    /// What went wrong, if that is why the session ends.
    pub error: Option<Error>,
}

// The fields, in order.
macro_rules! end_fields {
    ($($part:tt)*) => {
        fields! { [$($part)*]
            0 error "error" optional,
        }
    };
}

impl End {
    /// The code and the name of its descriptor.
    pub const DESCRIPTOR: (u64, &'static str) = (0x17, "amqp:end:list");

    /// The standard's names of the fields, in order.
    pub const FIELD_NAMES: &'static [&'static str] = end_fields!(names);
}

impl FieldList for End {
    ghost list = { fields_of ending };

    fn field_rules() -> &'static [FieldRule] {
        end_fields!(rules)
    }

    fn blank(_alloc: Global) -> End {
        End { error: None }
    }

    #[inline(always)]
    fn fill_field<R: ByteSource>(
        &mut self,
        index: usize,
        decoder: &mut Decoder<R>,
        alloc: Global,
    ) -> Result<(), CodecError> {
        end_fields!(fill(self, index, decoder, alloc))
    }

    #[inline(always)]
    fn is_null_field(&self, index: usize) -> bool {
        end_fields!(is_null(self, index))
    }

    #[inline(always)]
    fn write_field<P: Pass>(
        &self,
        index: usize,
        encoder: &mut Encoder<P>,
    ) -> Result<(), CodecError> {
        end_fields!(write(self, index, encoder))
    }
}

impl Serialize for End {
    ghost writing = { writing_of (composite ending) refl };

    fn serialize<P: Pass>(&self, encoder: &mut Encoder<P>) -> Result<(), CodecError> {
        write_composite(self, End::DESCRIPTOR.0, encoder)
    }

    fn in_type(&self) {
        end_fields!(in_type(self));
    }
}

impl SerializeTerm for End {
    fn is_null(&self) -> bool {
        false
    }

    ghost is_term = { one_term (composite ending) refl };
}

impl Composite for End {
    ghost names = { names_of ending };

    fn descriptor() -> (u64, &'static str) {
        End::DESCRIPTOR
    }

    ghost agrees = { agreement (composite ending) refl };
}
