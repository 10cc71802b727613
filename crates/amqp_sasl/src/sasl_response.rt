//! The client's answer to a question (Part 5, section 5.3.3.4).
ghost use Rattle.amqp_sums.specs.Types.{composite, fields_of, names_of, one_term, refl, agreement, writing_of};
ghost use Rattle.amqp_sasl.specs.Tables.{sasl_response};

use amqp_codec::kernel::{Composite, FieldList, FieldRule, write_composite};
use amqp_codec::{ByteSource, Decoder, Encoder, Error, Pass, Serialize, SerializeTerm, fields};
use amqp_primitives::Binary;
use std::alloc::Global;

/// What the client answers, in the terms of the mechanism.
#[derive(Clone, Debug, PartialEq, Eq, Drop)]
pub struct SaslResponse {
    /// The answer.
    pub response: Binary,
}

// The fields, in order.
macro_rules! sasl_response_fields {
    ($($part:tt)*) => {
        fields! { [$($part)*]
            0 response "response" mandatory,
        }
    };
}

impl SaslResponse {
    /// The code and the name of its descriptor.
    pub const DESCRIPTOR: (u64, &'static str) = (0x43, "amqp:sasl-response:list");

    /// The standard's names of the fields, in order.
    pub const FIELD_NAMES: &'static [&'static str] = sasl_response_fields!(names);
}

impl FieldList for SaslResponse {
    ghost list = { fields_of sasl_response };

    fn field_rules() -> &'static [FieldRule] {
        sasl_response_fields!(rules)
    }

    fn blank(alloc: Global) -> SaslResponse {
        SaslResponse {
            response: Binary(Vec::new(alloc)),
        }
    }

    #[inline(always)]
    fn fill_field<R: ByteSource>(
        &mut self,
        index: usize,
        decoder: &mut Decoder<R>,
        alloc: Global,
    ) -> Result<(), Error> {
        sasl_response_fields!(fill(self, index, decoder, alloc))
    }

    #[inline(always)]
    fn is_null_field(&self, index: usize) -> bool {
        sasl_response_fields!(is_null(self, index))
    }

    #[inline(always)]
    fn write_field<P: Pass>(&self, index: usize, encoder: &mut Encoder<P>) -> Result<(), Error> {
        sasl_response_fields!(write(self, index, encoder))
    }
}

impl Serialize for SaslResponse {
    ghost writing = { writing_of (composite sasl_response) refl };

    fn serialize<P: Pass>(&self, encoder: &mut Encoder<P>) -> Result<(), Error> {
        write_composite(self, SaslResponse::DESCRIPTOR.0, encoder)
    }

    fn in_type(&self) {
        sasl_response_fields!(in_type(self));
    }
}

impl SerializeTerm for SaslResponse {
    fn is_null(&self) -> bool {
        false
    }

    ghost is_term = { one_term (composite sasl_response) refl };
}

impl Composite for SaslResponse {
    ghost names = { names_of sasl_response };

    fn descriptor() -> (u64, &'static str) {
        SaslResponse::DESCRIPTOR
    }

    ghost agrees = { agreement (composite sasl_response) refl };
}
