//! Errors (Part 2, section 2.8.14), and the fields that many types have (Part 2, section 2.8.13). Also the conditions of errors, which are
//! texts that say what went wrong (Part 2, sections 2.8.15 to 2.8.18; Part 4, section 4.5.8).
#![tactic(auto)]

mod amqp_error;
mod connection_error;
mod error;
mod error_condition;
mod fields;
pub mod laws;
mod link_error;
mod session_error;
mod transaction_error;

pub use amqp_error::AmqpError;
pub use connection_error::ConnectionError;
pub use error::Error;
pub use error_condition::ErrorCondition;
pub use fields::Fields;
pub use link_error::LinkError;
pub use session_error::SessionError;
pub use transaction_error::TransactionError;
