//! A question from the server (Part 5, section 5.3.3.3).
ghost use Rattle.amqp_sums.specs.Types.{composite, fields_of, names_of, one_term, refl, agreement, writing_of};
ghost use Rattle.amqp_sasl.specs.Tables.{sasl_challenge};

use amqp_codec::kernel::{Composite, FieldList, FieldRule, write_composite};
use amqp_codec::{ByteSource, Decoder, Encoder, Error, Pass, Serialize, SerializeTerm, fields};
use amqp_primitives::Binary;
use std::alloc::Global;

/// What the server asks, in the terms of the mechanism.
#[derive(Clone, Debug, PartialEq, Eq, Drop)]
pub struct SaslChallenge {
    /// The question.
    pub challenge: Binary,
}

// The fields, in order.
macro_rules! sasl_challenge_fields {
    ($($part:tt)*) => {
        fields! { [$($part)*]
            0 challenge "challenge" mandatory,
        }
    };
}

impl SaslChallenge {
    /// The code and the name of its descriptor.
    pub const DESCRIPTOR: (u64, &'static str) = (0x42, "amqp:sasl-challenge:list");

    /// The standard's names of the fields, in order.
    pub const FIELD_NAMES: &'static [&'static str] = sasl_challenge_fields!(names);
}

impl FieldList for SaslChallenge {
    ghost list = { fields_of sasl_challenge };

    fn field_rules() -> &'static [FieldRule] {
        sasl_challenge_fields!(rules)
    }

    fn blank(alloc: Global) -> SaslChallenge {
        SaslChallenge {
            challenge: Binary(Vec::new(alloc)),
        }
    }

    #[inline(always)]
    fn fill_field<R: ByteSource>(
        &mut self,
        index: usize,
        decoder: &mut Decoder<R>,
        alloc: Global,
    ) -> Result<(), Error> {
        sasl_challenge_fields!(fill(self, index, decoder, alloc))
    }

    #[inline(always)]
    fn is_null_field(&self, index: usize) -> bool {
        sasl_challenge_fields!(is_null(self, index))
    }

    #[inline(always)]
    fn write_field<P: Pass>(&self, index: usize, encoder: &mut Encoder<P>) -> Result<(), Error> {
        sasl_challenge_fields!(write(self, index, encoder))
    }
}

impl Serialize for SaslChallenge {
    ghost writing = { writing_of (composite sasl_challenge) refl };

    fn serialize<P: Pass>(&self, encoder: &mut Encoder<P>) -> Result<(), Error> {
        write_composite(self, SaslChallenge::DESCRIPTOR.0, encoder)
    }

    fn in_type(&self) {
        sasl_challenge_fields!(in_type(self));
    }
}

impl SerializeTerm for SaslChallenge {
    fn is_null(&self) -> bool {
        false
    }

    ghost is_term = { one_term (composite sasl_challenge) refl };
}

impl Composite for SaslChallenge {
    ghost names = { names_of sasl_challenge };

    fn descriptor() -> (u64, &'static str) {
        SaslChallenge::DESCRIPTOR
    }

    ghost agrees = { agreement (composite sasl_challenge) refl };
}
