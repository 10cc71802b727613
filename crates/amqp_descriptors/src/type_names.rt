//! The names of the types.
use amqp_catalogue::{TypeName, types};
use std::alloc::{AllocError, Global};

/// The standard's names of the types, in the order of `TypeName`.
const NAMES: &[(&str, TypeName)] = types!(names);

/// Returns the names of all types.
pub fn names(alloc: Global) -> Result<Vec<&'static str>, AllocError> {
    NAMES.iter().map(|row| row.0).collect(alloc)
}

/// Returns the standard's name of a type, as `open`.
pub fn name_of(named: TypeName) -> &'static str {
    match NAMES.get(named as usize) {
        Some(row) => row.0,
        None => "",
    }
}
