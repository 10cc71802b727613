//! The nodes of terms: the values in a term, one by one, without a tree (Part 1, section 1.2). Nothing is allocated, and nothing is kept.
#![tactic(auto)]

mod fields;
pub mod laws;
mod nodes;

pub use fields::field_node;
pub use nodes::{Node, next_node};
