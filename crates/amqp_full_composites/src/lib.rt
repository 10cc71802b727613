//! Composites with a value in every field, from which the tests of composites are made, and small values. A call returns an error only if
//! memory runs out; a symbol also if its text is not ASCII.
#![tactic(auto)]

pub mod delivery;
pub mod parts;
pub mod performatives;
pub mod sasl;
pub mod termini;
