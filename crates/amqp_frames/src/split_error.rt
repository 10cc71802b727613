//! Why a message isn't split into transfers.
ghost use Rattle.std.specs.Prelude.{◌≡◌};
ghost use Rattle.amqp_frames.specs.Splitting.{split_condition_of};

use amqp_codec::Error;
use std::alloc::AllocError;

/// Why a message isn't split into transfers (Part 2, section 2.6.14).
#[derive(Clone, Copy, Debug, PartialEq, Eq, thiserror::Error)]
pub enum SplitError {
    /// The maximum leaves no byte for the payload after a transfer, or an empty message's transfer is longer than the maximum.
    #[error("the maximum frame size leaves no room for a payload")]
    FrameTooSmall,
    /// A transfer can't be written, or an allocation fails.
    #[error("{0}")]
    Value(Error),
}

impl From<Error> for SplitError {
    ghost use Rattle.amqp_frames.specs.declared.split_error.SplitError.TheVariants as fault;

    ghost from_gives = { λ error split_error. split_error ≡ fault.Value error };

    fn from(error: Error) -> SplitError {
        SplitError::Value(error)
    }
}

impl From<AllocError> for SplitError {
    ghost use Rattle.amqp_wire.specs.declared.error.Error.TheVariants as codec;
    ghost use Rattle.amqp_frames.specs.declared.split_error.SplitError.TheVariants as fault;

    ghost from_gives = { λ error split_error. split_error ≡ fault.Value codec.Memory };

    fn from(_error: AllocError) -> SplitError {
        SplitError::Value(Error::Memory)
    }
}

impl SplitError {
    /// Returns the error condition of the standard: `amqp:frame-size-too-small` (Part 2, section 2.8.15), or `amqp:internal-error` if a
    /// transfer can't be written.
    pub fn condition(&self) -> &'static str
        ensures { result.now ≡ split_condition_of self.now }
    {
        match self {
            SplitError::FrameTooSmall => "amqp:frame-size-too-small",
            SplitError::Value(_) => "amqp:internal-error",
        }
    }
}
