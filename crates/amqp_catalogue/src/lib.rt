//! The types that lines and calls may name, in one list (`types!`): each with its name, its number and the Rust type.
#![tactic(auto)]

mod type_list;
mod type_name;

pub use type_list::types;
pub use type_name::TypeName;
