//! The end of a connection (Part 2, section 2.7.9).
ghost use Rattle.std.specs.Prelude.{◌≡◌};
ghost use Rattle.amqp_sums.specs.Types.{composite, fields_of, names_of, one_term, refl, agreement, writing_of};
ghost use Rattle.amqp_performatives.specs.Tables.{close};

use amqp_codec::kernel::{Composite, FieldList, FieldRule, write_composite};
use amqp_codec::{
    ByteSource, Decoder, Encoder, Error as CodecError, Pass, Serialize, SerializeTerm, fields,
};
use amqp_errors::Error;
use std::alloc::Global;

/// Closes a connection.
#[derive(Clone, Debug, PartialEq, Eq, Drop)]
pub struct Close {
    /// What went wrong, if that is why the connection ends.
    pub error: Option<Error>,
}

// The fields, in order.
macro_rules! close_fields {
    ($($part:tt)*) => {
        fields! { [$($part)*]
            0 error "error" optional,
        }
    };
}

impl Close {
    /// The code and the name of its descriptor.
    pub const DESCRIPTOR: (u64, &'static str) = (0x18, "amqp:close:list");

    /// The standard's names of the fields, in order.
    pub const FIELD_NAMES: &'static [&'static str] = close_fields!(names);

    /// Returns a close of the connection, for this error or without one.
    pub fn new(error: Option<Error>) -> Close
        ensures { result.error ≡ error }
    {
        Close { error }
    }
}

impl FieldList for Close {
    ghost list = { fields_of close };

    fn field_rules() -> &'static [FieldRule] {
        close_fields!(rules)
    }

    fn blank(_alloc: Global) -> Close {
        Close { error: None }
    }

    #[inline(always)]
    fn fill_field<R: ByteSource>(
        &mut self,
        index: usize,
        decoder: &mut Decoder<R>,
        alloc: Global,
    ) -> Result<(), CodecError> {
        close_fields!(fill(self, index, decoder, alloc))
    }

    #[inline(always)]
    fn is_null_field(&self, index: usize) -> bool {
        close_fields!(is_null(self, index))
    }

    #[inline(always)]
    fn write_field<P: Pass>(
        &self,
        index: usize,
        encoder: &mut Encoder<P>,
    ) -> Result<(), CodecError> {
        close_fields!(write(self, index, encoder))
    }
}

impl Serialize for Close {
    ghost writing = { writing_of (composite close) refl };

    fn serialize<P: Pass>(&self, encoder: &mut Encoder<P>) -> Result<(), CodecError> {
        write_composite(self, Close::DESCRIPTOR.0, encoder)
    }

    fn in_type(&self) {
        close_fields!(in_type(self));
    }
}

impl SerializeTerm for Close {
    fn is_null(&self) -> bool {
        false
    }

    ghost is_term = { one_term (composite close) refl };
}

impl Composite for Close {
    ghost names = { names_of close };

    fn descriptor() -> (u64, &'static str) {
        Close::DESCRIPTOR
    }

    ghost agrees = { agreement (composite close) refl };
}
