//! Annotations of messages, and their keys (Part 3, section 3.2.10).
#![tactic(auto)]

mod borrowed_key;
pub mod laws;
mod look_up;
mod owned_key;

use amqp_maps::OrderedMap;
use amqp_values::Value;
pub use borrowed_key::{AnnotationKey, BorrowedKey};
pub use look_up::{annotation_get, annotation_remove};
pub use owned_key::OwnedKey;

/// A map from symbols or ulongs to values of any kind, in the order in which they were inserted (Part 3, section 3.2.10).
pub type Annotations = OrderedMap<OwnedKey, Value>;
