//! Messages that are made call by call (Part 3, section 3.2).
ghost use Rattle.std.specs.Prelude.{◌≡◌};
ghost use Rattle.amqp_messages.specs.Builders.{built, empty_builder, with_body};

use crate::message::Message;
use amqp_batches::Batch;
use amqp_map_sections::{ApplicationProperties, DeliveryAnnotations, Footer, MessageAnnotations};
use amqp_message_headers::{Header, Properties};
use amqp_sections::{AmqpSequence, AmqpValue, Data};

/// The body of a builder that has no body yet.
#[derive(Debug, Default, Drop)]
pub struct EmptyBody;

/// A message that is made call by call. It begins without sections. The body is set by one of `body`, `value`, `sequence`,
/// `sequence_batch`, `data` and `data_batch`.
#[derive(Clone, Debug, Default, Drop)]
pub struct Builder<T> {
    /// How the message is to be delivered.
    pub header: Option<Header>,
    /// What is said about its delivery from node to node.
    pub delivery_annotations: Option<DeliveryAnnotations>,
    /// What is said about it from its sender on.
    pub message_annotations: Option<MessageAnnotations>,
    /// Its properties by the standard.
    pub properties: Option<Properties>,
    /// Its properties by the application.
    pub application_properties: Option<ApplicationProperties>,
    /// What it carries.
    pub body: T,
    /// What can only be told after the body.
    pub footer: Option<Footer>,
}

impl Builder<EmptyBody> {
    /// Returns a builder without sections.
    pub fn new() -> Builder<EmptyBody>
        ensures { result ≡ empty_builder }
    {
        Builder {
            header: None,
            delivery_annotations: None,
            message_annotations: None,
            properties: None,
            application_properties: None,
            body: EmptyBody,
            footer: None,
        }
    }
}

impl<T> Builder<T> {
    /// Sets the header; `None` omits it.
    pub fn header(mut self, header: Option<Header>) -> Builder<T>
        ensures { result ≡ record self { header = header } }
    {
        self.header = header;
        self
    }

    /// Sets the delivery annotations; `None` omits them.
    pub fn delivery_annotations(
        mut self,
        delivery_annotations: Option<DeliveryAnnotations>,
    ) -> Builder<T>
        ensures { result ≡ record self { delivery_annotations = delivery_annotations } }
    {
        self.delivery_annotations = delivery_annotations;
        self
    }

    /// Sets the message annotations; `None` omits them.
    pub fn message_annotations(
        mut self,
        message_annotations: Option<MessageAnnotations>,
    ) -> Builder<T>
        ensures { result ≡ record self { message_annotations = message_annotations } }
    {
        self.message_annotations = message_annotations;
        self
    }

    /// Sets the properties; `None` omits them.
    pub fn properties(mut self, properties: Option<Properties>) -> Builder<T>
        ensures { result ≡ record self { properties = properties } }
    {
        self.properties = properties;
        self
    }

    /// Sets the application properties; `None` omits them.
    pub fn application_properties(
        mut self,
        application_properties: Option<ApplicationProperties>,
    ) -> Builder<T>
        ensures { result ≡ record self { application_properties = application_properties } }
    {
        self.application_properties = application_properties;
        self
    }

    /// Sets the footer; `None` omits it.
    pub fn footer(mut self, footer: Option<Footer>) -> Builder<T>
        ensures { result ≡ record self { footer = footer } }
    {
        self.footer = footer;
        self
    }

    /// Sets the body.
    pub fn body<B>(self, body: B) -> Builder<B>
    where
        T: Drop,
        ensures { built result ≡ with_body body (built self) }
    {
        Builder {
            header: self.header,
            delivery_annotations: self.delivery_annotations,
            message_annotations: self.message_annotations,
            properties: self.properties,
            application_properties: self.application_properties,
            body,
            footer: self.footer,
        }
    }

    /// Sets the body to one value.
    pub fn value<V>(self, value: V) -> Builder<AmqpValue<V>>
    where
        T: Drop,
        ensures { built result ≡ with_body (record { 0 = value }) (built self) }
    {
        self.body(AmqpValue(value))
    }

    /// Sets the body to one section with a list.
    pub fn sequence<V>(self, sequence: AmqpSequence<V>) -> Builder<AmqpSequence<V>>
    where
        T: Drop,
        ensures { built result ≡ with_body sequence (built self) }
    {
        self.body(sequence)
    }

    /// Sets the body to sections with lists, one after another.
    pub fn sequence_batch<V>(self, batch: Batch<AmqpSequence<V>>) -> Builder<Batch<AmqpSequence<V>>>
    where
        T: Drop,
        ensures { built result ≡ with_body batch (built self) }
    {
        self.body(batch)
    }

    /// Sets the body to one section with bytes.
    pub fn data(self, data: Data) -> Builder<Data>
    where
        T: Drop,
        ensures { built result ≡ with_body «data» (built self) }
    {
        self.body(data)
    }

    /// Sets the body to sections with bytes, one after another.
    pub fn data_batch(self, batch: Batch<Data>) -> Builder<Batch<Data>>
    where
        T: Drop,
        ensures { built result ≡ with_body batch (built self) }
    {
        self.body(batch)
    }

    /// Returns the message.
    pub fn build(self) -> Message<T>
        ensures { result ≡ built self }
    {
        Message {
            header: self.header,
            delivery_annotations: self.delivery_annotations,
            message_annotations: self.message_annotations,
            properties: self.properties,
            application_properties: self.application_properties,
            body: self.body,
            footer: self.footer,
        }
    }
}

impl Message<EmptyBody> {
    /// Returns a builder of a message, without sections.
    pub fn builder() -> Builder<EmptyBody>
        ensures { result ≡ empty_builder }
    {
        Builder::new()
    }
}
