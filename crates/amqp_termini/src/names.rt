//! Names that Part 3 gives to other types.
use amqp_errors::Fields;

/// The address of a node (Part 3, section 3.5.3).
pub type Address = String;

/// The properties of a node (Part 3, section 3.5.9).
pub type NodeProperties = Fields;

/// Filters by their names (Part 3, section 3.5.8).
pub type FilterSet = Fields;
