//! The begin of a link (Part 2, section 2.7.3).
ghost use Rattle.std.specs.Prelude.{◌≡◌};
ghost use Rattle.amqp_codec.specs.FieldReading.{IsBlank};
ghost use Rattle.amqp_sums.specs.Types.{composite, fields_of, names_of, one_term, refl, agreement, writing_of};
ghost use Rattle.amqp_attach.specs.Tables.{attach};

use crate::Unsettled;
use amqp_codec::kernel::{Composite, FieldList, FieldRule, write_composite};
use amqp_codec::{
    ByteSource, Decoder, Encoder, Error, Pass, Serialize, SerializeTerm, Symbol, fields,
};
use amqp_containers::Array;
use amqp_containers::multiple::{is_null_multiple, read_multiple, write_multiple};
use amqp_errors::Fields;
use amqp_restricted_types::{Handle, ReceiverSettleMode, Role, SenderSettleMode, SequenceNo};
use amqp_termini::{Source, TargetArchetype};
use std::alloc::Global;

/// Attaches a link to a session.
#[derive(Clone, Debug, PartialEq, Eq, Drop)]
pub struct Attach {
    /// The name of the link.
    pub name: String,
    /// The number that the sender of this uses for the link.
    pub handle: Handle,
    /// Which end of the link the sender of this is.
    pub role: Role,
    /// How the sender settles deliveries.
    pub snd_settle_mode: SenderSettleMode,
    /// When the receiver settles deliveries.
    pub rcv_settle_mode: ReceiverSettleMode,
    /// Where the messages come from.
    pub source: Option<Box<Source>>,
    /// Where the messages go to.
    pub target: Option<Box<TargetArchetype>>,
    /// The states of unsettled deliveries, by their tags, if a link is resumed.
    pub unsettled: Option<Unsettled>,
    /// Whether some unsettled deliveries aren't named.
    pub incomplete_unsettled: bool,
    /// The number of the first delivery. The sender of messages must give it, the receiver need not.
    pub initial_delivery_count: Option<SequenceNo>,
    /// The size of the greatest message that the sender of this accepts, in bytes. If it is omitted or 0, there is no bound.
    pub max_message_size: Option<u64>,
    /// What the sender of this can do.
    pub offered_capabilities: Option<Array<Symbol>>,
    /// What the sender of this asks the peer to do.
    pub desired_capabilities: Option<Array<Symbol>>,
    /// Further properties of the link.
    pub properties: Option<Fields>,
}

// The fields, in order.
macro_rules! attach_fields {
    ($($part:tt)*) => {
        fields! { [$($part)*]
            0 name "name" mandatory,
            1 handle "handle" mandatory,
            2 role "role" mandatory,
            3 snd_settle_mode "snd-settle-mode" default(SenderSettleMode::Mixed),
            4 rcv_settle_mode "rcv-settle-mode" default(ReceiverSettleMode::First),
            5 source "source" optional,
            6 target "target" optional,
            7 unsettled "unsettled" optional,
            8 incomplete_unsettled "incomplete-unsettled" default(false),
            9 initial_delivery_count "initial-delivery-count" optional,
            10 max_message_size "max-message-size" optional,
            11 offered_capabilities "offered-capabilities" multiple,
            12 desired_capabilities "desired-capabilities" multiple,
            13 properties "properties" optional,
        }
    };
}

impl Attach {
    /// The code and the name of its descriptor.
    pub const DESCRIPTOR: (u64, &'static str) = (0x12, "amqp:attach:list");

    /// The standard's names of the fields, in order.
    pub const FIELD_NAMES: &'static [&'static str] = attach_fields!(names);

    /// Returns an attach of the link with this name, by the end with this role. Each other field is omitted, or has the standard's default.
    #[inline(always)]
    pub fn new(name: String, handle: Handle, role: Role) -> Attach
        ensures name { result.name ≡ name }
        ensures handle { result.handle ≡ handle }
        ensures role { result.role ≡ role }
        ensures others { IsBlank attach.fields result }
    {
        Attach {
            name,
            handle,
            role,
            snd_settle_mode: SenderSettleMode::Mixed,
            rcv_settle_mode: ReceiverSettleMode::First,
            source: None,
            target: None,
            unsettled: None,
            incomplete_unsettled: false,
            initial_delivery_count: None,
            max_message_size: None,
            offered_capabilities: None,
            desired_capabilities: None,
            properties: None,
        }
    }
}

impl FieldList for Attach {
    ghost list = { fields_of attach };

    fn field_rules() -> &'static [FieldRule] {
        attach_fields!(rules)
    }

    fn blank(alloc: Global) -> Attach {
        Attach::new(String::new(alloc), Handle(0), Role::Sender)
    }

    #[inline(always)]
    fn fill_field<R: ByteSource>(
        &mut self,
        index: usize,
        decoder: &mut Decoder<R>,
        alloc: Global,
    ) -> Result<(), Error> {
        attach_fields!(fill(self, index, decoder, alloc))
    }

    #[inline(always)]
    fn is_null_field(&self, index: usize) -> bool {
        attach_fields!(is_null(self, index))
    }

    #[inline(always)]
    fn write_field<P: Pass>(&self, index: usize, encoder: &mut Encoder<P>) -> Result<(), Error> {
        attach_fields!(write(self, index, encoder))
    }
}

impl Serialize for Attach {
    ghost writing = { writing_of (composite attach) refl };

    fn serialize<P: Pass>(&self, encoder: &mut Encoder<P>) -> Result<(), Error> {
        write_composite(self, Attach::DESCRIPTOR.0, encoder)
    }

    fn in_type(&self) {
        attach_fields!(in_type(self));
    }
}

impl SerializeTerm for Attach {
    fn is_null(&self) -> bool {
        false
    }

    ghost is_term = { one_term (composite attach) refl };
}

impl Composite for Attach {
    ghost names = { names_of attach };

    fn descriptor() -> (u64, &'static str) {
        Attach::DESCRIPTOR
    }

    ghost agrees = { agreement (composite attach) refl };
}
