//! The outline of a term: the values in it, one after another, each with its place, its depth and its name. What isn't canonical is found
//! by `longer_head` and `longer_descriptor`.
#![tactic(auto)]

mod broken;
mod canonical;
mod entry;
mod outline;

pub use canonical::{Head, Longer, longer_descriptor, longer_head, saving_of};
pub use entry::{Entry, Label, Shape};
pub use outline::{Outline, add_outline, outline_at};
