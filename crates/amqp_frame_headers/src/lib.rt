//! Protocol headers, the headers of frames, and the bodies of SASL frames (Part 2, sections 2.2 and 2.3; Part 5, sections 5.2.1, 5.3.1 and
//! 5.3.2). `amqp_frames` exports them with the frames.
#![tactic(auto)]

mod frame_error;
pub mod frame_header;
pub mod laws;
mod protocol_header;
mod sasl_frame;

pub use frame_error::FrameError;
pub use frame_header::{FrameHeader, FrameKind, MIN_MAX_FRAME_SIZE};
pub use protocol_header::{HeaderStep, ProtocolHeader, ProtocolId, next_protocol_header};
pub use sasl_frame::SaslFrame;
