//! What is wrong with bytes of AMQP 1.0: faults, each with its cause, its place and the path to it, in the names of the standard's fields.
//! Besides, primitive values as text, and what an input is to be read as, within which limits.
#![tactic(auto)]

mod bounds;
mod fault;
mod kinds;
mod options;
mod path;
mod quoted;
mod value_text;

pub use bounds::Bounds;
pub use fault::{Cause, Fault};
pub use kinds::type_name;
pub use options::{Form, Options};
pub use quoted::{write_digits, write_quoted};
pub use value_text::{write_uuid, write_value};
