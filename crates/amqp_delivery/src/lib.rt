//! Delivery states that hold an error, a map or an outcome (Part 3, section 3.4; Part 4, section 4.5.6), the state of a delivery, and its
//! outcome.
#![tactic(auto)]

pub mod laws;
mod modified;
mod outcome;
mod outcome_members;
mod rejected;
mod state;
mod state_members;
mod transactional_state;

pub use modified::Modified;
pub use outcome::Outcome;
pub use rejected::Rejected;
pub use state::DeliveryState;
pub use transactional_state::TransactionalState;
