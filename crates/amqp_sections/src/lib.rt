//! The sections of a message's body (Part 3, sections 3.2.6 to 3.2.8), and all that are one value under a descriptor.
#![tactic(auto)]

mod amqp_sequence;
mod amqp_value;
mod data;
pub mod laws;
mod section;
mod shown;

pub use amqp_sequence::AmqpSequence;
pub use amqp_value::AmqpValue;
pub use data::Data;
pub use section::{Section, read_section, write_section};
