//! Values of any kind that keep the bytes that they were read from (Part 1, section 1.2).
#![tactic(auto)]

mod compared;
mod lazy_value;

pub use lazy_value::LazyValue;
