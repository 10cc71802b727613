//! The bodies of messages (Part 3, sections 3.2.6 to 3.2.8).
#![tactic(auto)]

mod body;
mod calls;
mod into;
mod iterators;
pub mod laws;
mod made;
mod optional;
mod plain;
mod sections;
mod shown;
mod traits;
mod transpose;
mod values;

pub use body::Body;
pub use iterators::{DataIter, IntoData, IntoSequence, SequenceIter};
pub use traits::{
    AsBodyRef, CanonicalBody, DeserializableBody, FromBody, FromEmptyBody, IntoBody, PlainFromBody,
    PlainIntoBody, SerializableBody, TransposeOption, ValueBody, ValueFromBody,
};
