//! The begin of a connection (Part 2, section 2.7.1).
ghost use Rattle.std.specs.Prelude.{◌≡◌};
ghost use Rattle.amqp_codec.specs.FieldReading.{IsBlank};
ghost use Rattle.amqp_sums.specs.Types.{composite, fields_of, names_of, one_term, refl, agreement, writing_of};
ghost use Rattle.amqp_performatives.specs.Tables.{opening};

use amqp_codec::kernel::{Composite, FieldList, FieldRule, write_composite};
use amqp_codec::{
    ByteSource, Decoder, Encoder, Error, Pass, Serialize, SerializeTerm, Symbol, fields,
};
use amqp_containers::Array;
use amqp_containers::multiple::{is_null_multiple, read_multiple, write_multiple};
use amqp_errors::Fields;
use amqp_restricted_types::{ChannelMax, IetfLanguageTag, MaxFrameSize, Milliseconds};
use std::alloc::Global;

/// Opens a connection, and states how it may be used.
#[derive(Clone, Debug, PartialEq, Eq, Drop)]
pub struct Open {
    /// The name of the container that sends this.
    pub container_id: String,
    /// The name of the host that the sender wants to reach.
    pub hostname: Option<String>,
    /// The size of the greatest frame that the sender of this accepts, in bytes.
    pub max_frame_size: MaxFrameSize,
    /// The greatest channel number that may be used.
    pub channel_max: ChannelMax,
    /// The sender's `idle-time-out`, in milliseconds without a frame.
    pub idle_time_out: Option<Milliseconds>,
    /// The locales in which the sender of this can write texts.
    pub outgoing_locales: Option<Array<IetfLanguageTag>>,
    /// The locales in which it asks for texts.
    pub incoming_locales: Option<Array<IetfLanguageTag>>,
    /// What the sender of this can do.
    pub offered_capabilities: Option<Array<Symbol>>,
    /// What the sender of this asks the peer to do.
    pub desired_capabilities: Option<Array<Symbol>>,
    /// Further properties of the connection.
    pub properties: Option<Fields>,
}

// The fields, in order.
macro_rules! open_fields {
    ($($part:tt)*) => {
        fields! { [$($part)*]
            0 container_id "container-id" mandatory,
            1 hostname "hostname" optional,
            2 max_frame_size "max-frame-size" default(MaxFrameSize(u32::MAX)),
            3 channel_max "channel-max" default(ChannelMax(u16::MAX)),
            4 idle_time_out "idle-time-out" optional,
            5 outgoing_locales "outgoing-locales" multiple,
            6 incoming_locales "incoming-locales" multiple,
            7 offered_capabilities "offered-capabilities" multiple,
            8 desired_capabilities "desired-capabilities" multiple,
            9 properties "properties" optional,
        }
    };
}

impl Open {
    /// The code and the name of its descriptor.
    pub const DESCRIPTOR: (u64, &'static str) = (0x10, "amqp:open:list");

    /// The standard's names of the fields, in order.
    pub const FIELD_NAMES: &'static [&'static str] = open_fields!(names);

    /// Returns an open of the container with this name. Each other field is omitted, or has the standard's default.
    #[inline(always)]
    pub fn new(container_id: String) -> Open
        ensures container_id { result.container_id ≡ container_id }
        ensures others { IsBlank opening.fields result }
    {
        Open {
            container_id,
            hostname: None,
            max_frame_size: MaxFrameSize(u32::MAX),
            channel_max: ChannelMax(u16::MAX),
            idle_time_out: None,
            outgoing_locales: None,
            incoming_locales: None,
            offered_capabilities: None,
            desired_capabilities: None,
            properties: None,
        }
    }
}

impl FieldList for Open {
    ghost list = { fields_of opening };

    fn field_rules() -> &'static [FieldRule] {
        open_fields!(rules)
    }

    fn blank(alloc: Global) -> Open {
        Open::new(String::new(alloc))
    }

    #[inline(always)]
    fn fill_field<R: ByteSource>(
        &mut self,
        index: usize,
        decoder: &mut Decoder<R>,
        alloc: Global,
    ) -> Result<(), Error> {
        open_fields!(fill(self, index, decoder, alloc))
    }

    #[inline(always)]
    fn is_null_field(&self, index: usize) -> bool {
        open_fields!(is_null(self, index))
    }

    #[inline(always)]
    fn write_field<P: Pass>(&self, index: usize, encoder: &mut Encoder<P>) -> Result<(), Error> {
        open_fields!(write(self, index, encoder))
    }
}

impl Serialize for Open {
    ghost writing = { writing_of (composite opening) refl };

    fn serialize<P: Pass>(&self, encoder: &mut Encoder<P>) -> Result<(), Error> {
        write_composite(self, Open::DESCRIPTOR.0, encoder)
    }

    fn in_type(&self) {
        open_fields!(in_type(self));
    }
}

impl SerializeTerm for Open {
    fn is_null(&self) -> bool {
        false
    }

    ghost is_term = { one_term (composite opening) refl };
}

impl Composite for Open {
    ghost names = { names_of opening };

    fn descriptor() -> (u64, &'static str) {
        Open::DESCRIPTOR
    }

    ghost agrees = { agreement (composite opening) refl };
}
