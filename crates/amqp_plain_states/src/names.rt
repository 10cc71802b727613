//! Names that Part 4 gives to primitive types.
use amqp_primitives::Binary;

/// The coordinator's name of a transaction (Part 4, section 4.5.4).
pub type TransactionId = Binary;
