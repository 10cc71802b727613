//! The flow of a session or of a link (Part 2, section 2.7.4).
ghost use Rattle.std.specs.Prelude.{◌≡◌};
ghost use Rattle.amqp_codec.specs.FieldReading.{IsBlank};
ghost use Rattle.amqp_sums.specs.Types.{composite, fields_of, names_of, one_term, refl, agreement, writing_of};
ghost use Rattle.amqp_performatives.specs.Tables.{flow};

use amqp_codec::kernel::{Composite, FieldList, FieldRule, write_composite};
use amqp_codec::{ByteSource, Decoder, Encoder, Error, Pass, Serialize, SerializeTerm, fields};
use amqp_errors::Fields;
use amqp_restricted_types::{Handle, SequenceNo, TransferNumber};
use std::alloc::Global;

/// States how much of a session, or of a link, may flow.
#[derive(Clone, Debug, PartialEq, Eq, Drop)]
pub struct Flow {
    /// The number of the next transfer that is expected. It is omitted until the peer has begun the session.
    pub next_incoming_id: Option<TransferNumber>,
    /// How many transfers the sender of this can receive.
    pub incoming_window: u32,
    /// The number of the next transfer that it sends.
    pub next_outgoing_id: TransferNumber,
    /// How many transfers it may send.
    pub outgoing_window: u32,
    /// The link whose flow this is. If it is omitted, this is the session's flow alone.
    pub handle: Option<Handle>,
    /// The number of the link's deliveries so far.
    pub delivery_count: Option<SequenceNo>,
    /// How many more messages the receiver can take.
    pub link_credit: Option<u32>,
    /// How many messages the sender has at hand.
    pub available: Option<u32>,
    /// Whether the sender is to use up its credit now.
    pub drain: bool,
    /// Whether the peer is asked for its own flow.
    pub echo: bool,
    /// Further properties of the link.
    pub properties: Option<Fields>,
}

// The fields, in order.
macro_rules! flow_fields {
    ($($part:tt)*) => {
        fields! { [$($part)*]
            0 next_incoming_id "next-incoming-id" optional,
            1 incoming_window "incoming-window" mandatory,
            2 next_outgoing_id "next-outgoing-id" mandatory,
            3 outgoing_window "outgoing-window" mandatory,
            4 handle "handle" optional,
            5 delivery_count "delivery-count" optional,
            6 link_credit "link-credit" optional,
            7 available "available" optional,
            8 drain "drain" default(false),
            9 echo "echo" default(false),
            10 properties "properties" optional,
        }
    };
}

impl Flow {
    /// The code and the name of its descriptor.
    pub const DESCRIPTOR: (u64, &'static str) = (0x13, "amqp:flow:list");

    /// The standard's names of the fields, in order.
    pub const FIELD_NAMES: &'static [&'static str] = flow_fields!(names);

    /// Returns a flow of a session with these numbers of transfers. Each other field is omitted, or has the standard's default.
    #[inline(always)]
    pub fn new(incoming_window: u32, next_outgoing_id: TransferNumber, outgoing_window: u32) -> Flow
        ensures incoming_window { result.incoming_window ≡ incoming_window }
        ensures next_outgoing_id { result.next_outgoing_id ≡ next_outgoing_id }
        ensures outgoing_window { result.outgoing_window ≡ outgoing_window }
        ensures others { IsBlank flow.fields result }
    {
        Flow {
            next_incoming_id: None,
            incoming_window,
            next_outgoing_id,
            outgoing_window,
            handle: None,
            delivery_count: None,
            link_credit: None,
            available: None,
            drain: false,
            echo: false,
            properties: None,
        }
    }
}

impl FieldList for Flow {
    ghost list = { fields_of flow };

    fn field_rules() -> &'static [FieldRule] {
        flow_fields!(rules)
    }

    fn blank(_alloc: Global) -> Flow {
        Flow::new(0, 0, 0)
    }

    #[inline(always)]
    fn fill_field<R: ByteSource>(
        &mut self,
        index: usize,
        decoder: &mut Decoder<R>,
        alloc: Global,
    ) -> Result<(), Error> {
        flow_fields!(fill(self, index, decoder, alloc))
    }

    #[inline(always)]
    fn is_null_field(&self, index: usize) -> bool {
        flow_fields!(is_null(self, index))
    }

    #[inline(always)]
    fn write_field<P: Pass>(&self, index: usize, encoder: &mut Encoder<P>) -> Result<(), Error> {
        flow_fields!(write(self, index, encoder))
    }
}

impl Serialize for Flow {
    ghost writing = { writing_of (composite flow) refl };

    fn serialize<P: Pass>(&self, encoder: &mut Encoder<P>) -> Result<(), Error> {
        write_composite(self, Flow::DESCRIPTOR.0, encoder)
    }

    fn in_type(&self) {
        flow_fields!(in_type(self));
    }
}

impl SerializeTerm for Flow {
    fn is_null(&self) -> bool {
        false
    }

    ghost is_term = { one_term (composite flow) refl };
}

impl Composite for Flow {
    ghost names = { names_of flow };

    fn descriptor() -> (u64, &'static str) {
        Flow::DESCRIPTOR
    }

    ghost agrees = { agreement (composite flow) refl };
}
