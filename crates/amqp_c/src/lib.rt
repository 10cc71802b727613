//! The library for C: what `fe2o3_amqp_types` reads and rewrites, by calls over bytes. Each call's name begins with `amqp_c_`. Types and
//! errors are passed as numbers, limits and outcomes as structs, and bytes as a pointer and a length. No call keeps anything, returns a
//! pointer or allocates for its caller.
#![tactic(auto)]

mod errors;
mod exports;
mod field_names;
mod limits;
mod outcome;
mod path;
mod rewriting;
mod room;
#[cfg(test)]
mod tests;

pub use amqp_nodes::Node;
pub use exports::{
    amqp_c_canonical, amqp_c_error_name, amqp_c_field, amqp_c_field_name, amqp_c_greatest,
    amqp_c_next, amqp_c_path, amqp_c_read, amqp_c_term_len, amqp_c_type, amqp_c_type_of_descriptor,
};
pub use limits::GivenLimits;
pub use outcome::Outcome;
pub use path::PathNode;
