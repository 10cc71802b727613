//! The modified outcome (Part 3, section 3.4.5).
ghost use Rattle.amqp_sums.specs.Types.{composite, fields_of, names_of, one_term, refl, agreement, writing_of};
ghost use Rattle.amqp_delivery.specs.Tables.{modified};

use amqp_codec::kernel::{Composite, FieldList, FieldRule, write_composite};
use amqp_codec::{ByteSource, Decoder, Encoder, Error, Pass, Serialize, SerializeTerm, fields};
use amqp_errors::Fields;
use std::alloc::Global;

/// The message was not processed, and is changed before it is sent again.
#[derive(Clone, Debug, PartialEq, Eq, Drop)]
pub struct Modified {
    /// Whether the transfer counts as a failed delivery.
    pub delivery_failed: Option<bool>,
    /// Whether the message is not to be sent to this node again.
    pub undeliverable_here: Option<bool>,
    /// Annotations that are added to those of the message, or replace them.
    pub message_annotations: Option<Fields>,
}

// The fields, in order.
macro_rules! modified_fields {
    ($($part:tt)*) => {
        fields! { [$($part)*]
            0 delivery_failed "delivery-failed" optional,
            1 undeliverable_here "undeliverable-here" optional,
            2 message_annotations "message-annotations" optional,
        }
    };
}

impl Modified {
    /// The code and the name of its descriptor.
    pub const DESCRIPTOR: (u64, &'static str) = (0x27, "amqp:modified:list");

    /// The standard's names of the fields, in order.
    pub const FIELD_NAMES: &'static [&'static str] = modified_fields!(names);
}

impl FieldList for Modified {
    ghost list = { fields_of modified };

    fn field_rules() -> &'static [FieldRule] {
        modified_fields!(rules)
    }

    fn blank(_alloc: Global) -> Modified {
        Modified {
            delivery_failed: None,
            undeliverable_here: None,
            message_annotations: None,
        }
    }

    #[inline(always)]
    fn fill_field<R: ByteSource>(
        &mut self,
        index: usize,
        decoder: &mut Decoder<R>,
        alloc: Global,
    ) -> Result<(), Error> {
        modified_fields!(fill(self, index, decoder, alloc))
    }

    #[inline(always)]
    fn is_null_field(&self, index: usize) -> bool {
        modified_fields!(is_null(self, index))
    }

    #[inline(always)]
    fn write_field<P: Pass>(&self, index: usize, encoder: &mut Encoder<P>) -> Result<(), Error> {
        modified_fields!(write(self, index, encoder))
    }
}

impl Serialize for Modified {
    ghost writing = { writing_of (composite modified) refl };

    fn serialize<P: Pass>(&self, encoder: &mut Encoder<P>) -> Result<(), Error> {
        write_composite(self, Modified::DESCRIPTOR.0, encoder)
    }

    fn in_type(&self) {
        modified_fields!(in_type(self));
    }
}

impl SerializeTerm for Modified {
    fn is_null(&self) -> bool {
        false
    }

    ghost is_term = { one_term (composite modified) refl };
}

impl Composite for Modified {
    ghost names = { names_of modified };

    fn descriptor() -> (u64, &'static str) {
        Modified::DESCRIPTOR
    }

    ghost agrees = { agreement (composite modified) refl };
}
