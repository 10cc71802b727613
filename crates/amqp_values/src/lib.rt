//! Values of any kind (Part 1, section 1.6).
#![tactic(auto)]

mod copied;
mod digest;
mod equality;
mod format_code;
mod hashed;
mod into_value;
mod keys;
pub mod laws;
pub mod leaf;
mod made;
mod map;
mod map_calls;
mod map_iter;
mod order;
mod read;
mod sorted;
mod taken;
mod typing;
mod value;
mod written;

pub use into_value::IntoValue;
pub use map::ValueMap;
pub use map_iter::{ValueMapIter, ValueMapValues};
pub use value::Value;
