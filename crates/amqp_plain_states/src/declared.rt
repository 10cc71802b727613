//! The outcome of a declared transaction (Part 4, section 4.5.5).
ghost use Rattle.amqp_sums.specs.Types.{composite, fields_of, names_of, one_term, refl, agreement, writing_of};
ghost use Rattle.amqp_plain_states.specs.Tables.{declared};

use crate::TransactionId;
use amqp_codec::kernel::{Composite, FieldList, FieldRule, write_composite};
use amqp_codec::{ByteSource, Decoder, Encoder, Error, Pass, Serialize, SerializeTerm, fields};
use amqp_primitives::Binary;
use std::alloc::Global;

/// The transaction was declared.
#[derive(Clone, Debug, PartialEq, Eq, Drop)]
pub struct Declared {
    /// The transaction's identifier.
    pub txn_id: TransactionId,
}

// The fields, in order.
macro_rules! declared_fields {
    ($($part:tt)*) => {
        fields! { [$($part)*]
            0 txn_id "txn-id" mandatory,
        }
    };
}

impl Declared {
    /// The code and the name of its descriptor.
    pub const DESCRIPTOR: (u64, &'static str) = (0x33, "amqp:declared:list");

    /// The standard's names of the fields, in order.
    pub const FIELD_NAMES: &'static [&'static str] = declared_fields!(names);
}

impl FieldList for Declared {
    ghost list = { fields_of declared };

    fn field_rules() -> &'static [FieldRule] {
        declared_fields!(rules)
    }

    fn blank(alloc: Global) -> Declared {
        Declared {
            txn_id: Binary(Vec::new(alloc)),
        }
    }

    #[inline(always)]
    fn fill_field<R: ByteSource>(
        &mut self,
        index: usize,
        decoder: &mut Decoder<R>,
        alloc: Global,
    ) -> Result<(), Error> {
        declared_fields!(fill(self, index, decoder, alloc))
    }

    #[inline(always)]
    fn is_null_field(&self, index: usize) -> bool {
        declared_fields!(is_null(self, index))
    }

    #[inline(always)]
    fn write_field<P: Pass>(&self, index: usize, encoder: &mut Encoder<P>) -> Result<(), Error> {
        declared_fields!(write(self, index, encoder))
    }
}

impl Serialize for Declared {
    ghost writing = { writing_of (composite declared) refl };

    fn serialize<P: Pass>(&self, encoder: &mut Encoder<P>) -> Result<(), Error> {
        write_composite(self, Declared::DESCRIPTOR.0, encoder)
    }

    fn in_type(&self) {
        declared_fields!(in_type(self));
    }
}

impl SerializeTerm for Declared {
    fn is_null(&self) -> bool {
        false
    }

    ghost is_term = { one_term (composite declared) refl };
}

impl Composite for Declared {
    ghost names = { names_of declared };

    fn descriptor() -> (u64, &'static str) {
        Declared::DESCRIPTOR
    }

    ghost agrees = { agreement (composite declared) refl };
}
