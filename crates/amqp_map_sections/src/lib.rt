//! The sections of messages that are maps (Part 3, sections 3.2.2, 3.2.3, 3.2.5 and 3.2.9), and their builder.
#![tactic(auto)]

mod application_properties;
mod delivery_annotations;
mod footer;
pub mod laws;
mod map_builder;
mod message_annotations;

pub use application_properties::ApplicationProperties;
pub use delivery_annotations::DeliveryAnnotations;
pub use footer::Footer;
pub use map_builder::MapBuilder;
pub use message_annotations::MessageAnnotations;
