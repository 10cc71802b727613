//! Maps that keep the order in which their keys were inserted (in Part 1, section 1.6.23, the order of a map's pairs counts).
#![tactic(auto)]

mod compared;
mod iterators;
mod key_hashing;
pub mod laws;
mod ordered_map;
mod pairs;
mod read;
mod written;

pub use iterators::{IntoIter, Iter, Values};
pub use key_hashing::{KeyHasher, KeyHashing};
pub use ordered_map::OrderedMap;
