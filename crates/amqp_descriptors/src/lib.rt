//! The standard's described types by their descriptors (Part 1, section 1.5): the type that a code, a symbol or a node names, what it
//! describes, and the names, the default values and the meanings of its fields; and the numbers that data encodes.
#![tactic(auto)]

mod codes;
mod content;
mod defaults;
mod described;
mod fields;
mod meanings;
mod numbers;
mod symbols;
mod type_names;

pub use codes::type_of_code;
pub use content::{Content, content_of, is_section};
pub use defaults::default_of;
pub use described::{code_of_descriptor, type_at, type_of_descriptor};
pub use fields::{field_name, field_names, missing_field};
pub use meanings::meaning;
pub use numbers::{character, is_true, signed, unsigned};
pub use symbols::code_of_symbol;
pub use type_names::{name_of, names};
