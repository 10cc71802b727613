//! The end of the exchange (Part 5, section 5.3.3.5).
ghost use Rattle.amqp_sums.specs.Types.{composite, fields_of, names_of, one_term, refl, agreement, writing_of};
ghost use Rattle.amqp_sasl.specs.Tables.{sasl_outcome};

use amqp_codec::kernel::{Composite, FieldList, FieldRule, write_composite};
use amqp_codec::{ByteSource, Decoder, Encoder, Error, Pass, Serialize, SerializeTerm, fields};
use amqp_primitives::Binary;
use amqp_restricted_types::SaslCode;
use std::alloc::Global;

/// How the exchange ended.
#[derive(Clone, Debug, PartialEq, Eq, Drop)]
pub struct SaslOutcome {
    /// How it ended.
    pub code: SaslCode,
    /// What the server says at the end, in the terms of the mechanism.
    pub additional_data: Option<Binary>,
}

// The fields, in order.
macro_rules! sasl_outcome_fields {
    ($($part:tt)*) => {
        fields! { [$($part)*]
            0 code "code" mandatory,
            1 additional_data "additional-data" optional,
        }
    };
}

impl SaslOutcome {
    /// The code and the name of its descriptor.
    pub const DESCRIPTOR: (u64, &'static str) = (0x44, "amqp:sasl-outcome:list");

    /// The standard's names of the fields, in order.
    pub const FIELD_NAMES: &'static [&'static str] = sasl_outcome_fields!(names);
}

impl FieldList for SaslOutcome {
    ghost list = { fields_of sasl_outcome };

    fn field_rules() -> &'static [FieldRule] {
        sasl_outcome_fields!(rules)
    }

    fn blank(_alloc: Global) -> SaslOutcome {
        SaslOutcome {
            code: SaslCode::Ok,
            additional_data: None,
        }
    }

    #[inline(always)]
    fn fill_field<R: ByteSource>(
        &mut self,
        index: usize,
        decoder: &mut Decoder<R>,
        alloc: Global,
    ) -> Result<(), Error> {
        sasl_outcome_fields!(fill(self, index, decoder, alloc))
    }

    #[inline(always)]
    fn is_null_field(&self, index: usize) -> bool {
        sasl_outcome_fields!(is_null(self, index))
    }

    #[inline(always)]
    fn write_field<P: Pass>(&self, index: usize, encoder: &mut Encoder<P>) -> Result<(), Error> {
        sasl_outcome_fields!(write(self, index, encoder))
    }
}

impl Serialize for SaslOutcome {
    ghost writing = { writing_of (composite sasl_outcome) refl };

    fn serialize<P: Pass>(&self, encoder: &mut Encoder<P>) -> Result<(), Error> {
        write_composite(self, SaslOutcome::DESCRIPTOR.0, encoder)
    }

    fn in_type(&self) {
        sasl_outcome_fields!(in_type(self));
    }
}

impl SerializeTerm for SaslOutcome {
    fn is_null(&self) -> bool {
        false
    }

    ghost is_term = { one_term (composite sasl_outcome) refl };
}

impl Composite for SaslOutcome {
    ghost names = { names_of sasl_outcome };

    fn descriptor() -> (u64, &'static str) {
        SaslOutcome::DESCRIPTOR
    }

    ghost agrees = { agreement (composite sasl_outcome) refl };
}
