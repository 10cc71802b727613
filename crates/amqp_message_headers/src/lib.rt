//! Headers and properties of messages (Part 3, sections 3.2.1 and 3.2.4), and the types of their fields.
#![tactic(auto)]

pub mod header;
pub mod laws;
mod message_id;
mod priority;
pub mod properties;

pub use header::Header;
pub use message_id::MessageId;
pub use priority::Priority;
pub use properties::Properties;

/// The format of messages in the standard (Part 3, section 3.2.16).
pub const MESSAGE_FORMAT: u32 = 0;
