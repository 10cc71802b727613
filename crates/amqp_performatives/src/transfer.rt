//! A transfer of a message (Part 2, section 2.7.5).
ghost use Rattle.std.specs.Prelude.{◌≡◌};
ghost use Rattle.amqp_codec.specs.FieldReading.{IsBlank};
ghost use Rattle.amqp_sums.specs.Types.{composite, fields_of, names_of, one_term, refl, agreement, writing_of};
ghost use Rattle.amqp_performatives.specs.Tables.{transfer};

use amqp_codec::kernel::{Composite, FieldList, FieldRule, write_composite};
use amqp_codec::{ByteSource, Decoder, Encoder, Error, Pass, Serialize, SerializeTerm, fields};
use amqp_delivery::DeliveryState;
use amqp_restricted_types::{
    DeliveryNumber, DeliveryTag, Handle, MessageFormat, ReceiverSettleMode,
};
use std::alloc::Global;

/// Transfers a message, or a part of one, over a link.
#[derive(Clone, Debug, PartialEq, Eq, Drop)]
pub struct Transfer {
    /// The link over which it is transferred.
    pub handle: Handle,
    /// The number of the delivery. It may be omitted if a delivery continues.
    pub delivery_id: Option<DeliveryNumber>,
    /// The sender's name for the delivery. It may be omitted if a delivery continues.
    pub delivery_tag: Option<DeliveryTag>,
    /// The format of the message. It may be omitted if a delivery continues.
    pub message_format: Option<MessageFormat>,
    /// Whether the delivery is settled at the sender. If it is omitted, the earlier transfers of the delivery say so, and otherwise it
    /// isn't settled.
    pub settled: Option<bool>,
    /// Whether more of the message follows in other transfers.
    pub more: bool,
    /// When the receiver settles the delivery. If it is omitted, the mode of the link counts.
    pub rcv_settle_mode: Option<ReceiverSettleMode>,
    /// The state of the delivery at the sender.
    pub state: Option<DeliveryState>,
    /// Whether an unsettled delivery is resumed.
    pub resume: bool,
    /// Whether the message is aborted, so that what was received of it is dropped.
    pub aborted: bool,
    /// Whether the peer need not soon report a change of the delivery's state.
    pub batchable: bool,
}

// The fields, in order.
macro_rules! transfer_fields {
    ($($part:tt)*) => {
        fields! { [$($part)*]
            0 handle "handle" mandatory,
            1 delivery_id "delivery-id" optional,
            2 delivery_tag "delivery-tag" optional,
            3 message_format "message-format" optional,
            4 settled "settled" optional,
            5 more "more" default(false),
            6 rcv_settle_mode "rcv-settle-mode" optional,
            7 state "state" optional,
            8 resume "resume" default(false),
            9 aborted "aborted" default(false),
            10 batchable "batchable" default(false),
        }
    };
}

impl Transfer {
    /// The code and the name of its descriptor.
    pub const DESCRIPTOR: (u64, &'static str) = (0x14, "amqp:transfer:list");

    /// The standard's names of the fields, in order.
    pub const FIELD_NAMES: &'static [&'static str] = transfer_fields!(names);

    /// Returns a transfer on the link with this handle. Each other field is omitted, or has the standard's default.
    #[inline(always)]
    pub fn new(handle: Handle) -> Transfer
        ensures handle { result.handle ≡ handle }
        ensures others { IsBlank transfer.fields result }
    {
        Transfer {
            handle,
            delivery_id: None,
            delivery_tag: None,
            message_format: None,
            settled: None,
            more: false,
            rcv_settle_mode: None,
            state: None,
            resume: false,
            aborted: false,
            batchable: false,
        }
    }
}

impl FieldList for Transfer {
    ghost list = { fields_of transfer };

    fn field_rules() -> &'static [FieldRule] {
        transfer_fields!(rules)
    }

    fn blank(_alloc: Global) -> Transfer {
        Transfer::new(Handle(0))
    }

    #[inline(always)]
    fn fill_field<R: ByteSource>(
        &mut self,
        index: usize,
        decoder: &mut Decoder<R>,
        alloc: Global,
    ) -> Result<(), Error> {
        transfer_fields!(fill(self, index, decoder, alloc))
    }

    #[inline(always)]
    fn is_null_field(&self, index: usize) -> bool {
        transfer_fields!(is_null(self, index))
    }

    #[inline(always)]
    fn write_field<P: Pass>(&self, index: usize, encoder: &mut Encoder<P>) -> Result<(), Error> {
        transfer_fields!(write(self, index, encoder))
    }
}

impl Serialize for Transfer {
    ghost writing = { writing_of (composite transfer) refl };

    fn serialize<P: Pass>(&self, encoder: &mut Encoder<P>) -> Result<(), Error> {
        write_composite(self, Transfer::DESCRIPTOR.0, encoder)
    }

    fn in_type(&self) {
        transfer_fields!(in_type(self));
    }
}

impl SerializeTerm for Transfer {
    fn is_null(&self) -> bool {
        false
    }

    ghost is_term = { one_term (composite transfer) refl };
}

impl Composite for Transfer {
    ghost names = { names_of transfer };

    fn descriptor() -> (u64, &'static str) {
        Transfer::DESCRIPTOR
    }

    ghost agrees = { agreement (composite transfer) refl };
}
