//! Names that Part 2 gives to primitive types (sections 2.8.5 to 2.8.12).
use amqp_codec::Symbol;
use amqp_primitives::Binary;

/// A duration in seconds (Part 2, section 2.8.5).
pub type Seconds = u32;

/// A duration in milliseconds (Part 2, section 2.8.6).
pub type Milliseconds = u32;

/// The sender's name for a delivery, of at most 32 bytes (Part 2, section 2.8.7). The length isn't checked.
pub type DeliveryTag = Binary;

/// The number of a delivery in its session (Part 2, section 2.8.8).
pub type DeliveryNumber = SequenceNo;

/// The number of a transfer in its session (Part 2, section 2.8.9).
pub type TransferNumber = SequenceNo;

/// A number after whose greatest value 0 comes again (Part 2, section 2.8.10).
pub type SequenceNo = u32;

/// The format of a message (Part 2, section 2.8.11).
pub type MessageFormat = u32;

/// A tag of a natural language (Part 2, section 2.8.12).
pub type IetfLanguageTag = Symbol;
