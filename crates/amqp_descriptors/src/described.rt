//! Descriptors in an input.
use crate::codes::type_of_code;
use crate::numbers::unsigned;
use crate::symbols::code_of_symbol;
use amqp_catalogue::TypeName;
use amqp_kinds::{Kind, kind_of};
use amqp_nodes::{Node, next_node};

/// Returns the code that a descriptor in the input has, or that its symbol means.
pub fn code_of_descriptor(input: &[u8], descriptor: &Node) -> Option<u64> {
    let bytes = input.get(descriptor.start..descriptor.end)?;
    match kind_of(descriptor.code) {
        Kind::Ulong => Some(unsigned(bytes)),
        Kind::Symbol => code_of_symbol(bytes),
        _ => None,
    }
}

/// Returns the type that a descriptor in the input names.
pub fn type_of_descriptor(input: &[u8], descriptor: &Node) -> Option<TypeName> {
    type_of_code(code_of_descriptor(input, descriptor)?)
}

/// Returns the type of the described value that begins at the place, if its descriptor is there and names one. The value need not be whole.
pub fn type_at(input: &[u8], at: usize) -> Option<TypeName> {
    match input.get(at) {
        Some(0) => {
            let descriptor = next_node(input, at.saturating_add(1), &Node::NOTHING).ok()?;
            type_of_descriptor(input, &descriptor)
        }
        _ => None,
    }
}
