//! Described values: a value of any type under a descriptor of its own (Part 1, section 1.2).
#![tactic(auto)]

mod described;
pub mod laws;

pub use described::Described;
