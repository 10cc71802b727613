//! The order that the sections of a message may have (Part 3, section 3.2).

/// The order that the sections of a message may have.
#[derive(Clone, Copy, Debug, PartialEq, Eq, Drop)]
pub enum Order {
    /// Any order, and each kind any number of times.
    Any,
    /// The standard's order, each kind at most once.
    Written,
}
