//! The traits of a type that is read and written, for the types of std and for what is made of any types.
#![tactic(auto)]

mod btree_maps;
mod composite;
mod containers;
mod field_macro;
mod fieldless;
mod fields;
mod integers;
pub mod kernel;
mod keys;
mod lists;
mod maps;
mod primitives;
mod texts;
mod traits;

pub use amqp_decoder::Decoder;
pub use amqp_encoder::{Encoder, Pass};
pub use amqp_wire::{ByteSource, Descriptor, Error, Symbol};
pub use keys::MapKey;
pub use traits::{Canonical, Deserialize, DeserializeTerm, Serialize, SerializeTerm};
