//! Properties (Part 3, section 3.2.4).
ghost use Rattle.std.specs.Prelude.{◌≡◌, Some};
ghost use Rattle.amqp_sums.specs.Types.{composite, fields_of, names_of, one_term, refl, agreement, writing_of};
ghost use Rattle.amqp_message_headers.specs.Made.{no_properties};
ghost use Rattle.amqp_message_headers.specs.Tables.{properties};

use crate::MessageId;
use amqp_codec::kernel::{Composite, FieldList, FieldRule, write_composite};
use amqp_codec::{
    ByteSource, Decoder, Encoder, Error, Pass, Serialize, SerializeTerm, Symbol, fields,
};
use amqp_primitives::{Binary, Timestamp};
use amqp_wire::section_code;
use std::alloc::Global;
use std::marker::Model;

/// The properties of a message (Part 3, section 3.2.4): fields of the bare message, which no node on its way may change. A field is `None`
/// if it is omitted.
#[derive(Clone, Debug, PartialEq, Eq, PartialOrd, Ord, Hash, Drop)]
pub struct Properties {
    /// Identifies the message among all messages of its sender.
    pub message_id: Option<MessageId>,
    /// The identity of the user who produced the message, as the receiver may check it.
    pub user_id: Option<Binary>,
    /// The address of the node that the message is sent to.
    pub to: Option<String>,
    /// A short text on what the message is about.
    pub subject: Option<String>,
    /// The address of the node that replies are sent to.
    pub reply_to: Option<String>,
    /// An identifier of the client's own, which marks messages that belong together.
    pub correlation_id: Option<MessageId>,
    /// The media type of the body (RFC 2046), if the body consists of data sections.
    pub content_type: Option<Symbol>,
    /// The content codings that the body's data have undergone (RFC 2616), as `gzip`.
    pub content_encoding: Option<Symbol>,
    /// When the message expires, in milliseconds since the Unix epoch.
    pub absolute_expiry_time: Option<Timestamp>,
    /// When the message was created, in milliseconds since the Unix epoch.
    pub creation_time: Option<Timestamp>,
    /// The group that the message belongs to.
    pub group_id: Option<String>,
    /// The position of the message in its group, a sequence number (RFC 1982).
    pub group_sequence: Option<u32>,
    /// The group that replies to the message belong to.
    pub reply_to_group_id: Option<String>,
}

// The fields, in order.
macro_rules! properties_fields {
    ($($part:tt)*) => {
        fields! { [$($part)*]
            0 message_id "message-id" optional,
            1 user_id "user-id" optional,
            2 to "to" optional,
            3 subject "subject" optional,
            4 reply_to "reply-to" optional,
            5 correlation_id "correlation-id" optional,
            6 content_type "content-type" optional,
            7 content_encoding "content-encoding" optional,
            8 absolute_expiry_time "absolute-expiry-time" optional,
            9 creation_time "creation-time" optional,
            10 group_id "group-id" optional,
            11 group_sequence "group-sequence" optional,
            12 reply_to_group_id "reply-to-group-id" optional,
        }
    };
}

impl Properties {
    /// The code and the name of its descriptor.
    pub const DESCRIPTOR: (u64, &'static str) = (
        section_code::PROPERTIES as u64,
        "amqp:properties:list",
    );

    /// The standard's names of the fields, in order.
    pub const FIELD_NAMES: &'static [&'static str] = properties_fields!(names);

    /// Returns properties in which every field is omitted.
    pub fn new() -> Properties
        ensures { result ≡ no_properties }
    {
        Properties {
            message_id: None,
            user_id: None,
            to: None,
            subject: None,
            reply_to: None,
            correlation_id: None,
            content_type: None,
            content_encoding: None,
            absolute_expiry_time: None,
            creation_time: None,
            group_id: None,
            group_sequence: None,
            reply_to_group_id: None,
        }
    }

    /// Returns a builder of properties, in which every field is omitted.
    pub fn builder() -> Builder
        ensures { result ≡ no_properties }
    {
        Builder::new()
    }
}

/// By default every field is omitted.
impl Default for Properties {
    ghost is_default = { λ made. made ≡ no_properties };

    fn default() -> Properties {
        Properties::new()
    }
}

impl FieldList for Properties {
    ghost list = { fields_of properties };

    fn field_rules() -> &'static [FieldRule] {
        properties_fields!(rules)
    }

    fn blank(_alloc: Global) -> Properties {
        Properties::new()
    }

    #[inline(always)]
    fn fill_field<R: ByteSource>(
        &mut self,
        index: usize,
        decoder: &mut Decoder<R>,
        alloc: Global,
    ) -> Result<(), Error> {
        properties_fields!(fill(self, index, decoder, alloc))
    }

    #[inline(always)]
    fn is_null_field(&self, index: usize) -> bool {
        properties_fields!(is_null(self, index))
    }

    #[inline(always)]
    fn write_field<P: Pass>(&self, index: usize, encoder: &mut Encoder<P>) -> Result<(), Error> {
        properties_fields!(write(self, index, encoder))
    }
}

impl Serialize for Properties {
    ghost writing = { writing_of (composite properties) refl };

    fn serialize<P: Pass>(&self, encoder: &mut Encoder<P>) -> Result<(), Error> {
        write_composite(self, Properties::DESCRIPTOR.0, encoder)
    }

    fn in_type(&self) {
        properties_fields!(in_type(self));
    }
}

impl SerializeTerm for Properties {
    fn is_null(&self) -> bool {
        false
    }

    ghost is_term = { one_term (composite properties) refl };
}

impl Composite for Properties {
    ghost names = { names_of properties };

    fn descriptor() -> (u64, &'static str) {
        Properties::DESCRIPTOR
    }

    ghost agrees = { agreement (composite properties) refl };
}

/// Properties that are made call by call. A field that no call sets is omitted.
#[derive(Clone, Debug, Drop)]
pub struct Builder {
    properties: Properties,
}

impl Model for Builder {
    ghost use Rattle.amqp_message_headers.specs.declared.properties.Properties.{Properties};

    ghost Value = { Properties };

    ghost use Rattle.amqp_message_headers.specs.contracts.properties.Properties.{the_row};

    ghost coded = { the_row.coded };

    ghost view = { λ b. b.properties };
}

/// By default every field is omitted.
impl Default for Builder {
    ghost is_default = { λ builder. builder ≡ no_properties };

    fn default() -> Builder {
        Builder::new()
    }
}

impl Builder {
    /// Returns a builder in which every field is omitted.
    pub fn new() -> Builder
        ensures { result ≡ no_properties }
    {
        Builder {
            properties: Properties::new(),
        }
    }

    /// Sets the identifier of the message among all messages of its sender.
    pub fn message_id(mut self, id: MessageId) -> Builder
        ensures { result ≡ record self { message_id = Some id } }
    {
        self.properties.message_id = Some(id);
        self
    }

    /// Sets the identity of the user who produced the message.
    pub fn user_id(mut self, user: Binary) -> Builder
        ensures { result ≡ record self { user_id = Some user } }
    {
        self.properties.user_id = Some(user);
        self
    }

    /// Sets the address of the node that the message is sent to.
    pub fn to(mut self, address: String) -> Builder
        ensures { result ≡ record self { to = Some address } }
    {
        self.properties.to = Some(address);
        self
    }

    /// Sets the text on what the message is about.
    pub fn subject(mut self, text: String) -> Builder
        ensures { result ≡ record self { subject = Some text } }
    {
        self.properties.subject = Some(text);
        self
    }

    /// Sets the address of the node that replies are sent to.
    pub fn reply_to(mut self, address: String) -> Builder
        ensures { result ≡ record self { reply_to = Some address } }
    {
        self.properties.reply_to = Some(address);
        self
    }

    /// Sets the identifier that marks messages that belong together.
    pub fn correlation_id(mut self, id: MessageId) -> Builder
        ensures { result ≡ record self { correlation_id = Some id } }
    {
        self.properties.correlation_id = Some(id);
        self
    }

    /// Sets the media type of the body.
    pub fn content_type(mut self, name: Symbol) -> Builder
        ensures { result ≡ record self { content_type = Some name } }
    {
        self.properties.content_type = Some(name);
        self
    }

    /// Sets the content codings of the body's data.
    pub fn content_encoding(mut self, name: Symbol) -> Builder
        ensures { result ≡ record self { content_encoding = Some name } }
    {
        self.properties.content_encoding = Some(name);
        self
    }

    /// Sets when the message expires, in milliseconds since the Unix epoch.
    pub fn absolute_expiry_time(mut self, time: Option<Timestamp>) -> Builder
        ensures { result ≡ record self { absolute_expiry_time = time } }
    {
        self.properties.absolute_expiry_time = time;
        self
    }

    /// Sets when the message was created, in milliseconds since the Unix epoch.
    pub fn creation_time(mut self, time: Option<Timestamp>) -> Builder
        ensures { result ≡ record self { creation_time = time } }
    {
        self.properties.creation_time = time;
        self
    }

    /// Sets the group that the message belongs to.
    pub fn group_id(mut self, id: Option<String>) -> Builder
        ensures { result ≡ record self { group_id = id } }
    {
        self.properties.group_id = id;
        self
    }

    /// Sets the position of the message in its group.
    pub fn group_sequence(mut self, place: Option<u32>) -> Builder
        ensures { result ≡ record self { group_sequence = place } }
    {
        self.properties.group_sequence = place;
        self
    }

    /// Sets the group that replies to the message belong to.
    pub fn reply_to_group_id(mut self, id: Option<String>) -> Builder
        ensures { result ≡ record self { reply_to_group_id = id } }
    {
        self.properties.reply_to_group_id = id;
        self
    }

    /// Returns the properties.
    pub fn build(self) -> Properties
        ensures { result ≡ self }
    {
        self.properties
    }
}

impl From<Builder> for Properties {
    ghost from_gives = { λ builder made. made ≡ builder };

    fn from(builder: Builder) -> Properties {
        builder.build()
    }
}

impl From<Builder> for Option<Properties> {
    ghost from_gives = { λ builder made. made ≡ Some builder };

    fn from(builder: Builder) -> Option<Properties> {
        Some(builder.build())
    }
}
