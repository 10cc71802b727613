//! The end of a transaction (Part 4, section 4.5.3).
ghost use Rattle.amqp_sums.specs.Types.{composite, fields_of, names_of, one_term, refl, agreement, writing_of};
ghost use Rattle.amqp_plain_states.specs.Tables.{discharge};

use crate::TransactionId;
use amqp_codec::kernel::{Composite, FieldList, FieldRule, write_composite};
use amqp_codec::{ByteSource, Decoder, Encoder, Error, Pass, Serialize, SerializeTerm, fields};
use amqp_primitives::Binary;
use std::alloc::Global;

/// Ends a transaction.
#[derive(Clone, Debug, PartialEq, Eq, Drop)]
pub struct Discharge {
    /// The transaction's identifier.
    pub txn_id: TransactionId,
    /// Whether it is rolled back; else it is committed.
    pub fail: Option<bool>,
}

// The fields, in order.
macro_rules! discharge_fields {
    ($($part:tt)*) => {
        fields! { [$($part)*]
            0 txn_id "txn-id" mandatory,
            1 fail "fail" optional,
        }
    };
}

impl Discharge {
    /// The code and the name of its descriptor.
    pub const DESCRIPTOR: (u64, &'static str) = (0x32, "amqp:discharge:list");

    /// The standard's names of the fields, in order.
    pub const FIELD_NAMES: &'static [&'static str] = discharge_fields!(names);
}

impl FieldList for Discharge {
    ghost list = { fields_of discharge };

    fn field_rules() -> &'static [FieldRule] {
        discharge_fields!(rules)
    }

    fn blank(alloc: Global) -> Discharge {
        Discharge {
            txn_id: Binary(Vec::new(alloc)),
            fail: None,
        }
    }

    #[inline(always)]
    fn fill_field<R: ByteSource>(
        &mut self,
        index: usize,
        decoder: &mut Decoder<R>,
        alloc: Global,
    ) -> Result<(), Error> {
        discharge_fields!(fill(self, index, decoder, alloc))
    }

    #[inline(always)]
    fn is_null_field(&self, index: usize) -> bool {
        discharge_fields!(is_null(self, index))
    }

    #[inline(always)]
    fn write_field<P: Pass>(&self, index: usize, encoder: &mut Encoder<P>) -> Result<(), Error> {
        discharge_fields!(write(self, index, encoder))
    }
}

impl Serialize for Discharge {
    ghost writing = { writing_of (composite discharge) refl };

    fn serialize<P: Pass>(&self, encoder: &mut Encoder<P>) -> Result<(), Error> {
        write_composite(self, Discharge::DESCRIPTOR.0, encoder)
    }

    fn in_type(&self) {
        discharge_fields!(in_type(self));
    }
}

impl SerializeTerm for Discharge {
    fn is_null(&self) -> bool {
        false
    }

    ghost is_term = { one_term (composite discharge) refl };
}

impl Composite for Discharge {
    ghost names = { names_of discharge };

    fn descriptor() -> (u64, &'static str) {
        Discharge::DESCRIPTOR
    }

    ghost agrees = { agreement (composite discharge) refl };
}
