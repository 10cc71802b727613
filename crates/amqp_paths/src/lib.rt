//! The path to a place in an encoded value: what is around the place, from the outside in (Part 1, sections 1.2 and 1.6). The value need not
//! be well formed at the place or behind it. Nothing is allocated.
#![tactic(auto)]

mod announced;
mod contents;
mod descriptors;
mod elements;
mod heads;
mod items;
pub mod laws;
mod path;
mod piece;
mod steps;

pub use path::{Path, path_of};
pub use piece::{ContainerKind, Node, Piece};
