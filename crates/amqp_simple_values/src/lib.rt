//! Values of any kind except lists, maps and arrays (Part 3, section 3.2.5).
#![tactic(auto)]

mod conversions;
mod copied;
mod equality;
mod format_code;
pub mod laws;
mod made;
mod order;
mod read;
mod simple;
mod taken;
mod written;

pub use simple::SimpleValue;
