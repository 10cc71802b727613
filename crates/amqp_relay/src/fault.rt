//! Where the input is wrong.
use amqp_frames::{BodyError, DeliveryError, FrameError, WriteError};
use std::alloc::AllocError;

/// Why a frame or a protocol header isn't relayed.
#[derive(Clone, Copy, Debug, PartialEq, Eq, thiserror::Error)]
pub(crate) enum Cause {
    #[error("{0}")]
    Frame(#[from] FrameError),
    #[error("{0}")]
    Body(#[from] BodyError),
    #[error("{0}")]
    Delivery(#[from] DeliveryError),
    #[error("in canonical text, {0}")]
    Written(#[from] WriteError),
    #[error("the input ends within a frame or a protocol header")]
    Ended,
    #[error("out of memory")]
    Memory,
}

/// A cause, and the place in the input at which the frame or the protocol header begins that has it.
#[derive(Clone, Copy, Debug, PartialEq, Eq, thiserror::Error)]
#[error("byte {at}: {cause} ({})", .cause.condition())]
pub(crate) struct Fault {
    pub(crate) cause: Cause,
    pub(crate) at: u64,
}

impl From<AllocError> for Cause {
    fn from(_error: AllocError) -> Cause {
        Cause::Memory
    }
}

impl Cause {
    /// The error condition that the sender would be told.
    pub(crate) fn condition(&self) -> &'static str {
        match self {
            Cause::Frame(error) => error.condition(),
            Cause::Body(error) => error.condition(),
            Cause::Delivery(error) => error.condition(),
            Cause::Ended => "amqp:connection:framing-error",
            Cause::Written(_) | Cause::Memory => "amqp:internal-error",
        }
    }
}
