//! The values that hold any number of other values (Part 1, sections 1.6.22 to 1.6.24).

/// A list, map or array (Part 1, sections 1.6.22 to 1.6.24).
#[derive(Clone, Copy)]
pub enum Container {
    /// A list (section 1.6.22).
    List,
    /// A map (section 1.6.23).
    Map,
    /// An array (section 1.6.24).
    Array,
}
