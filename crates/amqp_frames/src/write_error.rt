//! Why a frame isn't written.
ghost use Rattle.std.specs.Prelude.{◌≡◌};

use amqp_frame_headers::FrameError;
use amqp_wire::Error;

/// Why a frame isn't written.
#[derive(Clone, Copy, Debug, PartialEq, Eq, thiserror::Error)]
pub enum WriteError {
    /// The frame is too large: the error is `SizeAboveMaximum`, or `SaslAboveLimit` for a SASL frame.
    #[error("{0}")]
    Frame(FrameError),
    /// The value can't be written for this reason, or an allocation failed.
    #[error("{0}")]
    Value(Error),
}

impl From<FrameError> for WriteError {
    ghost use Rattle.amqp_frames.specs.declared.write_error.WriteError.TheVariants.{Frame};

    ghost from_gives = { λ error e. e ≡ Frame error };

    fn from(error: FrameError) -> WriteError {
        WriteError::Frame(error)
    }
}

impl From<Error> for WriteError {
    ghost use Rattle.amqp_frames.specs.declared.write_error.WriteError.TheVariants.{Value};

    ghost from_gives = { λ error e. e ≡ Value error };

    fn from(error: Error) -> WriteError {
        WriteError::Value(error)
    }
}
