//! Messages: their sections in any order, and in the standard's order (Part 3, section 3.2).
#![tactic(auto)]

pub mod builder;
mod calls;
mod canonical;
mod decode;
mod from;
pub mod laws;
mod message;
mod next;
mod order;
mod read;
mod strict;
pub mod wrappers;
mod write;

pub use decode::{DecodeIntoMessage, FromMessage};
pub use message::Message;
pub use order::Order;
pub use read::read_message;
pub use strict::{
    Strict, canonical_text_strict, canonical_text_strict_within, decode_message_strict,
    decode_message_strict_within,
};
