//! What the descriptors describe.
use amqp_catalogue::TypeName;

/// What a descriptor describes.
#[derive(Clone, Copy, Debug, PartialEq, Eq)]
pub enum Content {
    /// A list of fields.
    Fields,
    /// A list of any values.
    Items,
    /// A map.
    Pairs,
    /// A binary.
    Bytes,
    /// Any value.
    Any,
}

/// Returns what the descriptor of a type describes.
pub fn content_of(named: TypeName) -> Content {
    match named {
        TypeName::DeliveryAnnotations
        | TypeName::MessageAnnotations
        | TypeName::ApplicationProperties
        | TypeName::Footer => Content::Pairs,
        TypeName::Data => Content::Bytes,
        TypeName::AmqpSequence => Content::Items,
        TypeName::AmqpValue => Content::Any,
        _ => Content::Fields,
    }
}

/// Returns whether a type is a section of a message (Part 3, section 3.2).
pub fn is_section(named: TypeName) -> bool {
    matches!(
        named,
        TypeName::Header
            | TypeName::DeliveryAnnotations
            | TypeName::MessageAnnotations
            | TypeName::Properties
            | TypeName::ApplicationProperties
            | TypeName::Data
            | TypeName::AmqpSequence
            | TypeName::AmqpValue
            | TypeName::Footer
    )
}
