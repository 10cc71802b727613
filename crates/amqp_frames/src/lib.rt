//! Protocol headers and frames: what a connection carries (Part 2, sections 2.2, 2.3, 2.6.14 and 2.7.5; Part 5, sections 5.2.1, 5.3.1 and 5.3.2).
//! The calls work on bytes that are in memory, and do no input or output. Those that find headers and frames don't allocate.
#![tactic(auto)]

mod body;
mod body_error;
mod deliveries;
mod delivery_error;
mod frames;
pub mod laws;
mod pieces;
mod split_error;
mod write_error;
mod writing;

pub use body::AmqpBody;
pub use body_error::{BodyError, BodyFault};
pub use deliveries::{Deliveries, Delivery, Joined};
pub use delivery_error::DeliveryError;
pub use frame_error::FrameError;
pub use frame_header::{FrameHeader, FrameKind, MIN_MAX_FRAME_SIZE};
pub use frames::{Frame, Step, next_frame};
pub use pieces::{Piece, split};
pub use protocol_header::{HeaderStep, ProtocolHeader, ProtocolId, next_protocol_header};
pub use sasl_frame::SaslFrame;
pub use split_error::SplitError;
pub use write_error::WriteError;
pub use writing::{write_empty_frame, write_frame, write_sasl_frame};

/// Why bytes are no frame or no protocol header.
pub mod frame_error {
    pub use amqp_frame_headers::FrameError;
}

/// The first eight bytes of a frame (Part 2, section 2.3.1; Part 5, section 5.3.1).
pub mod frame_header {
    pub use amqp_frame_headers::{FrameHeader, FrameKind, MIN_MAX_FRAME_SIZE};
}

/// Protocol headers: the eight bytes that a connection begins with (Part 2, section 2.2; Part 5, sections 5.2.1 and 5.3.2).
pub mod protocol_header {
    pub use amqp_frame_headers::{HeaderStep, ProtocolHeader, ProtocolId, next_protocol_header};
}

/// The SASL types as one type (Part 5, section 5.3.1).
pub mod sasl_frame {
    pub use amqp_frame_headers::SaslFrame;
}
