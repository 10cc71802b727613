//! The state of a delivery in a transaction (Part 4, section 4.5.6).
ghost use Rattle.amqp_sums.specs.Types.{composite, fields_of, names_of, one_term, refl, agreement, writing_of};
ghost use Rattle.amqp_delivery.specs.Tables.{transactional_state};

use crate::Outcome;
use amqp_codec::kernel::{Composite, FieldList, FieldRule, write_composite};
use amqp_codec::{ByteSource, Decoder, Encoder, Error, Pass, Serialize, SerializeTerm, fields};
use amqp_plain_states::TransactionId;
use amqp_primitives::Binary;
use std::alloc::Global;

/// The state of a delivery in a transaction.
#[derive(Clone, Debug, PartialEq, Eq, Drop)]
pub struct TransactionalState {
    /// The transaction's identifier.
    pub txn_id: TransactionId,
    /// The outcome that counts once the transaction is committed.
    pub outcome: Option<Outcome>,
}

// The fields, in order.
macro_rules! transactional_state_fields {
    ($($part:tt)*) => {
        fields! { [$($part)*]
            0 txn_id "txn-id" mandatory,
            1 outcome "outcome" optional,
        }
    };
}

impl TransactionalState {
    /// The code and the name of its descriptor.
    pub const DESCRIPTOR: (u64, &'static str) = (0x34, "amqp:transactional-state:list");

    /// The standard's names of the fields, in order.
    pub const FIELD_NAMES: &'static [&'static str] = transactional_state_fields!(names);
}

impl FieldList for TransactionalState {
    ghost list = { fields_of transactional_state };

    fn field_rules() -> &'static [FieldRule] {
        transactional_state_fields!(rules)
    }

    fn blank(alloc: Global) -> TransactionalState {
        TransactionalState {
            txn_id: Binary(Vec::new(alloc)),
            outcome: None,
        }
    }

    #[inline(always)]
    fn fill_field<R: ByteSource>(
        &mut self,
        index: usize,
        decoder: &mut Decoder<R>,
        alloc: Global,
    ) -> Result<(), Error> {
        transactional_state_fields!(fill(self, index, decoder, alloc))
    }

    #[inline(always)]
    fn is_null_field(&self, index: usize) -> bool {
        transactional_state_fields!(is_null(self, index))
    }

    #[inline(always)]
    fn write_field<P: Pass>(&self, index: usize, encoder: &mut Encoder<P>) -> Result<(), Error> {
        transactional_state_fields!(write(self, index, encoder))
    }
}

impl Serialize for TransactionalState {
    ghost writing = { writing_of (composite transactional_state) refl };

    fn serialize<P: Pass>(&self, encoder: &mut Encoder<P>) -> Result<(), Error> {
        write_composite(self, TransactionalState::DESCRIPTOR.0, encoder)
    }

    fn in_type(&self) {
        transactional_state_fields!(in_type(self));
    }
}

impl SerializeTerm for TransactionalState {
    fn is_null(&self) -> bool {
        false
    }

    ghost is_term = { one_term (composite transactional_state) refl };
}

impl Composite for TransactionalState {
    ghost names = { names_of transactional_state };

    fn descriptor() -> (u64, &'static str) {
        TransactionalState::DESCRIPTOR
    }

    ghost agrees = { agreement (composite transactional_state) refl };
}
