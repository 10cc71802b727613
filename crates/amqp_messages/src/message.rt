//! Messages: the sections that are present, and the body (Part 3, section 3.2).
use amqp_map_sections::{ApplicationProperties, DeliveryAnnotations, Footer, MessageAnnotations};
use amqp_message_headers::{Header, Properties};

/// A message (Part 3, section 3.2): its body, and the other sections that are present. `clone` allocates; its sections are clones of the
/// sections. By default a message has only its body, which is the default of its type.
#[derive(Clone, Debug, Default, PartialEq, Eq, PartialOrd, Ord, Hash, Drop)]
pub struct Message<B> {
    /// How the message is to be delivered.
    pub header: Option<Header>,
    /// What is said about its delivery from node to node.
    pub delivery_annotations: Option<DeliveryAnnotations>,
    /// What is said about it from its sender on.
    pub message_annotations: Option<MessageAnnotations>,
    /// Its properties by the standard.
    pub properties: Option<Properties>,
    /// Its properties by the application.
    pub application_properties: Option<ApplicationProperties>,
    /// What it carries.
    pub body: B,
    /// What can only be told after the body.
    pub footer: Option<Footer>,
}

/// What was read of a message so far: the last group of each kind. `S` is the type that its body is read as.
#[derive(Drop)]
pub struct Groups<S> {
    pub(crate) header: Option<Header>,
    pub(crate) delivery_annotations: Option<DeliveryAnnotations>,
    pub(crate) message_annotations: Option<MessageAnnotations>,
    pub(crate) properties: Option<Properties>,
    pub(crate) application_properties: Option<ApplicationProperties>,
    pub(crate) body: Option<S>,
    pub(crate) footer: Option<Footer>,
}
