//! The end of a link (Part 2, section 2.7.7).
ghost use Rattle.amqp_sums.specs.Types.{composite, fields_of, names_of, one_term, refl, agreement, writing_of};
ghost use Rattle.amqp_performatives.specs.Tables.{detach};

use amqp_codec::kernel::{Composite, FieldList, FieldRule, write_composite};
use amqp_codec::{
    ByteSource, Decoder, Encoder, Error as CodecError, Pass, Serialize, SerializeTerm, fields,
};
use amqp_errors::Error;
use amqp_restricted_types::Handle;
use std::alloc::Global;

/// Detaches a link from its session.
#[derive(Clone, Debug, PartialEq, Eq, Drop)]
pub struct Detach {
    /// The link.
    pub handle: Handle,
    /// Whether the link is closed, too.
    pub closed: bool,
    /// What went wrong, if that is why the link is detached.
    pub error: Option<Error>,
}

// The fields, in order.
macro_rules! detach_fields {
    ($($part:tt)*) => {
        fields! { [$($part)*]
            0 handle "handle" mandatory,
            1 closed "closed" default(false),
            2 error "error" optional,
        }
    };
}

impl Detach {
    /// The code and the name of its descriptor.
    pub const DESCRIPTOR: (u64, &'static str) = (0x16, "amqp:detach:list");

    /// The standard's names of the fields, in order.
    pub const FIELD_NAMES: &'static [&'static str] = detach_fields!(names);
}

impl FieldList for Detach {
    ghost list = { fields_of detach };

    fn field_rules() -> &'static [FieldRule] {
        detach_fields!(rules)
    }

    fn blank(_alloc: Global) -> Detach {
        Detach {
            handle: Handle(0),
            closed: false,
            error: None,
        }
    }

    #[inline(always)]
    fn fill_field<R: ByteSource>(
        &mut self,
        index: usize,
        decoder: &mut Decoder<R>,
        alloc: Global,
    ) -> Result<(), CodecError> {
        detach_fields!(fill(self, index, decoder, alloc))
    }

    #[inline(always)]
    fn is_null_field(&self, index: usize) -> bool {
        detach_fields!(is_null(self, index))
    }

    #[inline(always)]
    fn write_field<P: Pass>(
        &self,
        index: usize,
        encoder: &mut Encoder<P>,
    ) -> Result<(), CodecError> {
        detach_fields!(write(self, index, encoder))
    }
}

impl Serialize for Detach {
    ghost writing = { writing_of (composite detach) refl };

    fn serialize<P: Pass>(&self, encoder: &mut Encoder<P>) -> Result<(), CodecError> {
        write_composite(self, Detach::DESCRIPTOR.0, encoder)
    }

    fn in_type(&self) {
        detach_fields!(in_type(self));
    }
}

impl SerializeTerm for Detach {
    fn is_null(&self) -> bool {
        false
    }

    ghost is_term = { one_term (composite detach) refl };
}

impl Composite for Detach {
    ghost names = { names_of detach };

    fn descriptor() -> (u64, &'static str) {
        Detach::DESCRIPTOR
    }

    ghost agrees = { agreement (composite detach) refl };
}
