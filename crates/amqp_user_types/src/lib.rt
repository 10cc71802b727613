//! Types of a user's own. They are an identifier, which is a sum by kind, and a composite with fields of several values.
//! There are also a key of maps, and a list of one field without a descriptor.
#![tactic(auto)]

pub mod identifier;
mod offer;
pub mod port;
pub mod seconds;

pub use offer::Offer;
