//! Batches: sections of one kind, one after another, in a message's body (Part 3, sections 3.2.6 and 3.2.7).
#![tactic(auto)]

mod batch;
mod items;
pub mod laws;
mod not_section;
mod run;
mod transparent_vec;

pub use batch::Batch;
pub use not_section::no_section;
pub use run::{BatchItem, read_run};
pub use transparent_vec::TransparentVec;
