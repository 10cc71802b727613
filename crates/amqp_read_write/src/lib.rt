//! The calls on whole values, and the laws of what they read and write.
#![tactic(auto)]

mod calls;
pub mod laws;
mod reader;

pub use amqp_codec::{Canonical, Deserialize, DeserializeTerm, Serialize, SerializeTerm};
pub use amqp_wire::{Limits, ReadSource};
pub use calls::{
    append_to_vec, canonical_into, canonical_text, canonical_text_within, encoded_len, from_slice,
    from_slice_counted, from_slice_located, from_slice_within, to_vec, write_into,
};
pub use reader::{from_reader, from_reader_located, from_reader_within};
