//! The decoder: a cursor over the bytes of terms, with a typed call for each kind of value.
#![tactic(auto)]

mod arrays;
mod containers;
mod decoder;
mod described;
mod frame;
pub mod laws;
mod primitives;
mod row;
mod terms;
mod texts;

pub use amqp_lengths::term_len;
pub use decoder::{Decoder, decoder_of, decoder_of_term, decoder_within, source_of, unread};
