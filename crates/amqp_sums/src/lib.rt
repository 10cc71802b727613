//! Types that are one of several: sums of composites, and restricted numbers and texts, with one reader and one writer for each.
#![tactic(auto)]

pub mod restricted;
mod sums;

pub use sums::{Sum, is_null_sum, read_as, read_sum, write_as};
