//! The begin of a session (Part 2, section 2.7.2).
ghost use Rattle.std.specs.Prelude.{◌≡◌};
ghost use Rattle.amqp_codec.specs.FieldReading.{IsBlank};
ghost use Rattle.amqp_sums.specs.Types.{composite, fields_of, names_of, one_term, refl, agreement, writing_of};
ghost use Rattle.amqp_performatives.specs.Tables.{begin};

use amqp_codec::kernel::{Composite, FieldList, FieldRule, write_composite};
use amqp_codec::{
    ByteSource, Decoder, Encoder, Error, Pass, Serialize, SerializeTerm, Symbol, fields,
};
use amqp_containers::Array;
use amqp_containers::multiple::{is_null_multiple, read_multiple, write_multiple};
use amqp_errors::Fields;
use amqp_restricted_types::{Handle, TransferNumber};
use std::alloc::Global;

/// Begins a session on a channel.
#[derive(Clone, Debug, PartialEq, Eq, Drop)]
pub struct Begin {
    /// The channel on which the peer began the session, if this answers the peer's begin.
    pub remote_channel: Option<u16>,
    /// The number of the first transfer.
    pub next_outgoing_id: TransferNumber,
    /// How many transfers the sender of this can receive.
    pub incoming_window: u32,
    /// How many transfers it may send.
    pub outgoing_window: u32,
    /// The greatest handle that may be used.
    pub handle_max: Handle,
    /// What the sender of this can do.
    pub offered_capabilities: Option<Array<Symbol>>,
    /// What the sender of this asks the peer to do.
    pub desired_capabilities: Option<Array<Symbol>>,
    /// Further properties of the session.
    pub properties: Option<Fields>,
}

// The fields, in order.
macro_rules! begin_fields {
    ($($part:tt)*) => {
        fields! { [$($part)*]
            0 remote_channel "remote-channel" optional,
            1 next_outgoing_id "next-outgoing-id" mandatory,
            2 incoming_window "incoming-window" mandatory,
            3 outgoing_window "outgoing-window" mandatory,
            4 handle_max "handle-max" default(Handle(u32::MAX)),
            5 offered_capabilities "offered-capabilities" multiple,
            6 desired_capabilities "desired-capabilities" multiple,
            7 properties "properties" optional,
        }
    };
}

impl Begin {
    /// The code and the name of its descriptor.
    pub const DESCRIPTOR: (u64, &'static str) = (0x11, "amqp:begin:list");

    /// The standard's names of the fields, in order.
    pub const FIELD_NAMES: &'static [&'static str] = begin_fields!(names);

    /// Returns a begin of a session with these numbers of transfers. Each other field is omitted, or has the standard's default.
    #[inline(always)]
    pub fn new(
        next_outgoing_id: TransferNumber,
        incoming_window: u32,
        outgoing_window: u32,
    ) -> Begin
        ensures next_outgoing_id { result.next_outgoing_id ≡ next_outgoing_id }
        ensures incoming_window { result.incoming_window ≡ incoming_window }
        ensures outgoing_window { result.outgoing_window ≡ outgoing_window }
        ensures others { IsBlank begin.fields result }
    {
        Begin {
            remote_channel: None,
            next_outgoing_id,
            incoming_window,
            outgoing_window,
            handle_max: Handle(u32::MAX),
            offered_capabilities: None,
            desired_capabilities: None,
            properties: None,
        }
    }
}

impl FieldList for Begin {
    ghost list = { fields_of begin };

    fn field_rules() -> &'static [FieldRule] {
        begin_fields!(rules)
    }

    fn blank(_alloc: Global) -> Begin {
        Begin::new(0, 0, 0)
    }

    #[inline(always)]
    fn fill_field<R: ByteSource>(
        &mut self,
        index: usize,
        decoder: &mut Decoder<R>,
        alloc: Global,
    ) -> Result<(), Error> {
        begin_fields!(fill(self, index, decoder, alloc))
    }

    #[inline(always)]
    fn is_null_field(&self, index: usize) -> bool {
        begin_fields!(is_null(self, index))
    }

    #[inline(always)]
    fn write_field<P: Pass>(&self, index: usize, encoder: &mut Encoder<P>) -> Result<(), Error> {
        begin_fields!(write(self, index, encoder))
    }
}

impl Serialize for Begin {
    ghost writing = { writing_of (composite begin) refl };

    fn serialize<P: Pass>(&self, encoder: &mut Encoder<P>) -> Result<(), Error> {
        write_composite(self, Begin::DESCRIPTOR.0, encoder)
    }

    fn in_type(&self) {
        begin_fields!(in_type(self));
    }
}

impl SerializeTerm for Begin {
    fn is_null(&self) -> bool {
        false
    }

    ghost is_term = { one_term (composite begin) refl };
}

impl Composite for Begin {
    ghost names = { names_of begin };

    fn descriptor() -> (u64, &'static str) {
        Begin::DESCRIPTOR
    }

    ghost agrees = { agreement (composite begin) refl };
}
