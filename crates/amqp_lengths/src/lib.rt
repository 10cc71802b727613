//! How long the terms at the start of bytes are: a reading of slices that doesn't allocate.
#![tactic(auto)]

mod constructors;
mod contents;
pub mod laws;
mod lengths;
mod measures;
mod primitives;
mod shares;
mod sizes;

pub use lengths::{len_of_term, len_of_term_located, term_len, term_len_located};
pub use measures::{Measures, measures_of};
