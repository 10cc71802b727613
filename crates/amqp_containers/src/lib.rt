//! Arrays of values of one type (Part 1, section 1.6.24), which also hold the values of a field of several values.
#![tactic(auto)]

mod array;
pub mod laws;
pub mod multiple;

pub use array::Array;
