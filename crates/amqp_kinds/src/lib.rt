//! The kinds of terms (Part 1, sections 1.2 and 1.6), how a value of any kind is read by the kind of what comes next, and sums of primitive
//! types, distinguished by their kinds.
#![tactic(auto)]

mod kind;
mod read;
mod sums;

pub use kind::{Kind, kind_of};
pub use read::read_as;
pub use sums::{KindSum, read_kind_sum};
