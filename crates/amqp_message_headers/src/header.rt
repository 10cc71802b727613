//! Headers (Part 3, section 3.2.1).
ghost use Rattle.std.specs.Prelude.{◌≡◌, Some};
ghost use Rattle.amqp_sums.specs.Types.{composite, fields_of, names_of, one_term, refl, agreement, writing_of};
ghost use Rattle.amqp_message_headers.specs.Made.{default_header};
ghost use Rattle.amqp_message_headers.specs.Tables.{header};

use crate::Priority;
use amqp_codec::kernel::{Composite, FieldList, FieldRule, write_composite};
use amqp_codec::{ByteSource, Decoder, Encoder, Error, Pass, Serialize, SerializeTerm, fields};
use amqp_wire::section_code;
use std::alloc::Global;
use std::marker::Model;

/// The header of a message: how it is to be delivered (Part 3, section 3.2.1). Nodes on the way of the message may change it.
#[derive(Clone, Debug, PartialEq, Eq, PartialOrd, Ord, Hash, Drop)]
pub struct Header {
    /// Whether the message must survive the loss or restart of a node. `false` if the field is omitted.
    pub durable: bool,
    /// The priority of the message: greater numbers come before smaller ones. 4 if the field is omitted.
    pub priority: Priority,
    /// For how many milliseconds the message is live. `None` means without end.
    pub ttl: Option<u32>,
    /// Whether no other link has acquired the message before. `false` if the field is omitted.
    pub first_acquirer: bool,
    /// How many earlier attempts to deliver the message have failed. 0 if the field is omitted.
    pub delivery_count: u32,
}

// The fields, in order.
macro_rules! header_fields {
    ($($part:tt)*) => {
        fields! { [$($part)*]
            0 durable "durable" default(false),
            1 priority "priority" default(Priority(4)),
            2 ttl "ttl" optional,
            3 first_acquirer "first-acquirer" default(false),
            4 delivery_count "delivery-count" default(0),
        }
    };
}

impl Header {
    /// The code and the name of its descriptor.
    pub const DESCRIPTOR: (u64, &'static str) = (section_code::HEADER as u64, "amqp:header:list");

    /// The standard's names of the fields, in order.
    pub const FIELD_NAMES: &'static [&'static str] = header_fields!(names);

    /// Returns a builder of a header, in which every field is omitted.
    pub fn builder() -> Builder
        ensures { result ≡ default_header }
    {
        Builder::new()
    }
}

/// By default every field is omitted.
impl Default for Header {
    ghost is_default = { λ made. made ≡ default_header };

    fn default() -> Header {
        Header {
            durable: false,
            priority: Priority(4),
            ttl: None,
            first_acquirer: false,
            delivery_count: 0,
        }
    }
}

impl FieldList for Header {
    ghost list = { fields_of header };

    fn field_rules() -> &'static [FieldRule] {
        header_fields!(rules)
    }

    fn blank(_alloc: Global) -> Header {
        Header::default()
    }

    #[inline(always)]
    fn fill_field<R: ByteSource>(
        &mut self,
        index: usize,
        decoder: &mut Decoder<R>,
        alloc: Global,
    ) -> Result<(), Error> {
        header_fields!(fill(self, index, decoder, alloc))
    }

    #[inline(always)]
    fn is_null_field(&self, index: usize) -> bool {
        header_fields!(is_null(self, index))
    }

    #[inline(always)]
    fn write_field<P: Pass>(&self, index: usize, encoder: &mut Encoder<P>) -> Result<(), Error> {
        header_fields!(write(self, index, encoder))
    }
}

impl Serialize for Header {
    ghost writing = { writing_of (composite header) refl };

    fn serialize<P: Pass>(&self, encoder: &mut Encoder<P>) -> Result<(), Error> {
        write_composite(self, Header::DESCRIPTOR.0, encoder)
    }

    fn in_type(&self) {
        header_fields!(in_type(self));
    }
}

impl SerializeTerm for Header {
    fn is_null(&self) -> bool {
        false
    }

    ghost is_term = { one_term (composite header) refl };
}

impl Composite for Header {
    ghost names = { names_of header };

    fn descriptor() -> (u64, &'static str) {
        Header::DESCRIPTOR
    }

    ghost agrees = { agreement (composite header) refl };
}

/// A header that is made call by call. A field that no call sets is omitted.
#[derive(Clone, Debug, Drop)]
pub struct Builder {
    header: Header,
}

impl Model for Builder {
    ghost use Rattle.amqp_message_headers.specs.declared.header.Header.{Header};

    ghost Value = { Header };

    ghost use Rattle.amqp_message_headers.specs.contracts.header.Header.{the_row};

    ghost coded = { the_row.coded };

    ghost view = { λ b. b.header };
}

/// By default every field is omitted.
impl Default for Builder {
    ghost is_default = { λ builder. builder ≡ default_header };

    fn default() -> Builder {
        Builder::new()
    }
}

impl Builder {
    /// Returns a builder in which every field is omitted.
    pub fn new() -> Builder
        ensures { result ≡ default_header }
    {
        Builder {
            header: Header::default(),
        }
    }

    /// Sets whether the message must survive the loss or restart of a node.
    pub fn durable(mut self, durable: bool) -> Builder
        ensures { result ≡ record self { durable = durable } }
    {
        self.header.durable = durable;
        self
    }

    /// Sets the priority of the message.
    pub fn priority(mut self, priority: Priority) -> Builder
        ensures { result ≡ record self { priority = priority } }
    {
        self.header.priority = priority;
        self
    }

    /// Sets for how many milliseconds the message is live; `None` means without end.
    pub fn ttl(mut self, milliseconds: Option<u32>) -> Builder
        ensures { result ≡ record self { ttl = milliseconds } }
    {
        self.header.ttl = milliseconds;
        self
    }

    /// Sets whether no other link has acquired the message before.
    pub fn first_acquirer(mut self, first_acquirer: bool) -> Builder
        ensures { result ≡ record self { first_acquirer = first_acquirer } }
    {
        self.header.first_acquirer = first_acquirer;
        self
    }

    /// Sets how many earlier attempts to deliver the message have failed.
    pub fn delivery_count(mut self, count: u32) -> Builder
        ensures { result ≡ record self { delivery_count = count } }
    {
        self.header.delivery_count = count;
        self
    }

    /// Returns the header.
    pub fn build(self) -> Header
        ensures { result ≡ self }
    {
        self.header
    }
}

impl From<Builder> for Header {
    ghost from_gives = { λ builder made. made ≡ builder };

    fn from(builder: Builder) -> Header {
        builder.build()
    }
}

impl From<Builder> for Option<Header> {
    ghost from_gives = { λ builder made. made ≡ Some builder };

    fn from(builder: Builder) -> Option<Header> {
        Some(builder.build())
    }
}
