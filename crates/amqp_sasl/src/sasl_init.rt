//! The client's choice of a mechanism (Part 5, section 5.3.3.2).
ghost use Rattle.amqp_sums.specs.Types.{composite, fields_of, names_of, one_term, refl, agreement, writing_of};
ghost use Rattle.amqp_sasl.specs.Tables.{sasl_init};

use amqp_codec::kernel::{Composite, FieldList, FieldRule, write_composite};
use amqp_codec::{
    ByteSource, Decoder, Encoder, Error, Pass, Serialize, SerializeTerm, Symbol, fields,
};
use amqp_primitives::Binary;
use std::alloc::Global;

/// The client's choice of a mechanism, and its first response.
#[derive(Clone, Debug, PartialEq, Eq, Drop)]
pub struct SaslInit {
    /// The mechanism.
    pub mechanism: Symbol,
    /// What the client says before it is asked.
    pub initial_response: Option<Binary>,
    /// The name of the host that the client wants to reach.
    pub hostname: Option<String>,
}

// The fields, in order.
macro_rules! sasl_init_fields {
    ($($part:tt)*) => {
        fields! { [$($part)*]
            0 mechanism "mechanism" mandatory,
            1 initial_response "initial-response" optional,
            2 hostname "hostname" optional,
        }
    };
}

impl SaslInit {
    /// The code and the name of its descriptor.
    pub const DESCRIPTOR: (u64, &'static str) = (0x41, "amqp:sasl-init:list");

    /// The standard's names of the fields, in order.
    pub const FIELD_NAMES: &'static [&'static str] = sasl_init_fields!(names);
}

impl FieldList for SaslInit {
    ghost list = { fields_of sasl_init };

    fn field_rules() -> &'static [FieldRule] {
        sasl_init_fields!(rules)
    }

    fn blank(alloc: Global) -> SaslInit {
        SaslInit {
            mechanism: Symbol(String::new(alloc)),
            initial_response: None,
            hostname: None,
        }
    }

    #[inline(always)]
    fn fill_field<R: ByteSource>(
        &mut self,
        index: usize,
        decoder: &mut Decoder<R>,
        alloc: Global,
    ) -> Result<(), Error> {
        sasl_init_fields!(fill(self, index, decoder, alloc))
    }

    #[inline(always)]
    fn is_null_field(&self, index: usize) -> bool {
        sasl_init_fields!(is_null(self, index))
    }

    #[inline(always)]
    fn write_field<P: Pass>(&self, index: usize, encoder: &mut Encoder<P>) -> Result<(), Error> {
        sasl_init_fields!(write(self, index, encoder))
    }
}

impl Serialize for SaslInit {
    ghost writing = { writing_of (composite sasl_init) refl };

    fn serialize<P: Pass>(&self, encoder: &mut Encoder<P>) -> Result<(), Error> {
        write_composite(self, SaslInit::DESCRIPTOR.0, encoder)
    }

    fn in_type(&self) {
        sasl_init_fields!(in_type(self));
    }
}

impl SerializeTerm for SaslInit {
    fn is_null(&self) -> bool {
        false
    }

    ghost is_term = { one_term (composite sasl_init) refl };
}

impl Composite for SaslInit {
    ghost names = { names_of sasl_init };

    fn descriptor() -> (u64, &'static str) {
        SaslInit::DESCRIPTOR
    }

    ghost agrees = { agreement (composite sasl_init) refl };
}
