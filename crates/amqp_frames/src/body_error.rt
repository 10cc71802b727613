//! Why the body of a frame isn't read.
ghost use Rattle.std.specs.Prelude.{◌≡◌};
ghost use Rattle.amqp_frames.specs.BodyErrors.{condition_of};

use amqp_wire::Error;

/// What is wrong with the body of a frame.
#[derive(Clone, Copy, Debug, PartialEq, Eq, thiserror::Error)]
pub enum BodyFault {
    /// The frame is of the other type: SASL where AMQP is read, or AMQP where SASL is read.
    #[error("the frame is of the other type")]
    OtherType,
    /// The body isn't empty, and the value at its start isn't read: for this reason, which is never `Read`.
    #[error("{0}")]
    Value(Error),
    /// A SASL frame has an empty body (Part 5, section 5.3.1).
    #[error("a SASL frame has an empty body")]
    EmptySasl,
    /// Bytes follow the one value of a SASL frame (Part 5, section 5.3.1).
    #[error("bytes follow the value of a SASL frame")]
    BytesLeft,
}

/// Why the body of a frame isn't read.
#[derive(Clone, Copy, Debug, PartialEq, Eq, thiserror::Error)]
#[error("{fault}, at byte {at} of the frame")]
pub struct BodyError {
    /// What is wrong.
    pub fault: BodyFault,
    /// Where, in bytes from the start of the frame. It is 5 for `OtherType`, the place of the type. It is where the body begins for `Value`
    /// and `EmptySasl`, and the first byte after the value for `BytesLeft`.
    pub at: usize,
}

impl BodyError {
    /// Returns the error condition that a peer closes the connection with (Part 2, sections 2.8.15 and 2.8.16). A SASL exchange has no
    /// way to report it.
    ///
    /// It is `amqp:connection:framing-error` for `OtherType`. For `Value`, it is `amqp:internal-error` if an allocation failed, and
    /// `amqp:resource-limit-exceeded` if the value is past a limit of the caller. Otherwise it is `amqp:decode-error`.
    pub fn condition(&self) -> &'static str
        ensures { result.now ≡ condition_of self.now.fault }
    {
        match self.fault {
            BodyFault::OtherType => "amqp:connection:framing-error",
            BodyFault::Value(Error::Memory) => "amqp:internal-error",
            BodyFault::Value(Error::Limit) => "amqp:resource-limit-exceeded",
            BodyFault::Value(_) | BodyFault::EmptySasl | BodyFault::BytesLeft => {
                "amqp:decode-error"
            }
        }
    }
}
