//! The value of a type that is named: how many bytes of the input it takes, and its canonical text.
#![tactic(auto)]

mod rewriting;

pub use rewriting::{len_of_value, text_of_value};
