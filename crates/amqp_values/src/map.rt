//! Maps of values of any kind to values of any kind (Part 1, section 1.6.23).
use crate::Value;

/// A map of values of any kind to values of any kind (Part 1, section 1.6.23), as its pairs in their order. Two equal keys can be put in it
/// by hand. Such a map can't be written: it is refused with `DuplicateKey`.
///
/// Equality, order and hash are those of the list of its pairs; a pair goes by its key and then by its value.
#[cycle(values)]
#[derive(Debug, Drop)]
pub struct ValueMap(pub Vec<(Value, Value)>);
