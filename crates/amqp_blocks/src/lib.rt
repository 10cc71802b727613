//! What bytes of AMQP 1.0 are, block by block: the frames of one direction of a connection, the sections of a message, or a term of any type
//! (Part 1, section 1.2; Part 2, sections 2.2 and 2.3; Part 3, section 3.2). `Source` gives the blocks one after another, while bytes come. A
//! block has the values in it with their places and names (`amqp_outlines`), and its faults (`amqp_faults`).
#![tactic(auto)]

mod block;
mod frames;
mod message;
mod message_types;
mod source;
mod term;
mod verdict;

pub use block::{Block, Span, Subject};
pub use frames::Frames;
pub use message::Sections;
pub use source::Source;
pub use term::Term;
