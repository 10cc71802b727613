//! Faults, each with its place and the path to it.
ghost use Rattle.std.specs.Prelude.{◌≡◌, ◌+◌, ◌-◌, ◌<◌, ◌^◌, IfOk};
ghost use Rattle.amqp_frames.specs.FrameErrors.{place_of};

use crate::path::path_text;
use amqp_frames::FrameError;
use amqp_wire::{Error, Refusal};
use std::alloc::{AllocError, Global};

/// What is wrong.
#[derive(Clone, Copy, Debug, PartialEq, Eq, thiserror::Error)]
pub enum Cause {
    /// A value is faulty, or there is none, or it goes past a limit.
    #[error("{0}")]
    Value(Error),
    /// The header of a frame is faulty (Part 2, section 2.3.1).
    #[error("{0}")]
    Frame(FrameError),
    /// A SASL frame has no body (Part 5, section 5.3.1).
    #[error("a SASL frame has an empty body")]
    EmptySasl,
    /// Bytes are behind the value.
    #[error("bytes follow the value")]
    BytesLeft,
    /// The input ends before a frame or a protocol header does.
    #[error("the input ends here, and {0} more bytes are needed")]
    Ended(usize),
}

impl Cause {
    /// Returns the name of the error.
    pub fn name(&self) -> &'static str {
        match self {
            Cause::Value(error) => error.name(),
            Cause::Frame(error) => frame_error_name(error),
            Cause::EmptySasl => "EmptySasl",
            Cause::BytesLeft => "BytesLeft",
            Cause::Ended(_) => "Ended",
        }
    }
}

// The name of the error's variant.
fn frame_error_name(error: &FrameError) -> &'static str {
    match error {
        FrameError::SizeBelowHeader => "SizeBelowHeader",
        FrameError::SizeAboveMaximum => "SizeAboveMaximum",
        FrameError::DataOffsetBelowHeader => "DataOffsetBelowHeader",
        FrameError::DataOffsetPastSize => "DataOffsetPastSize",
        FrameError::UnknownType(_) => "UnknownType",
        FrameError::SaslAboveLimit => "SaslAboveLimit",
        FrameError::NotProtocolHeader => "NotProtocolHeader",
    }
}

// The path to the field of a frame's header at this place in it (Part 2, section 2.3.1).
fn frame_field(at: usize) -> &'static str {
    match at {
        0 => "frame.size",
        4 => "frame.doff",
        _ => "frame.type",
    }
}

/// What is wrong, and where.
#[derive(Drop)]
pub struct Fault {
    /// What is wrong.
    pub cause: Cause,
    /// How many bytes of the block are before it.
    pub at: usize,
    /// The path to it, or an empty text.
    pub path: String,
}

impl Fault {
    /// A fault that is in no term.
    pub fn at(cause: Cause, at: usize, alloc: Global) -> Fault
        ensures { result.at ≡ at }
    {
        Fault {
            cause,
            at,
            path: String::new(alloc),
        }
    }

    /// A fault of the header of a frame.
    pub fn of_frame(error: FrameError, alloc: Global) -> Result<Fault, AllocError>
        ensures error { IfOk result (λ fault. fault.cause ≡ Cause.Frame error) }
        ensures place { IfOk result (λ fault. fault.at ≡ place_of error) }
    {
        let at = error.at();
        Ok(Fault {
            cause: Cause::Frame(error),
            at,
            path: String::from_str(alloc, frame_field(at))?,
        })
    }

    /// A fault in the bytes that begin at `base`. The path to it leads from the term that begins at `from`.
    pub fn of_term(
        refusal: Refusal,
        input: &[u8],
        base: usize,
        from: usize,
        alloc: Global,
    ) -> Result<Fault, AllocError>
        ensures error { IfOk result (λ fault. fault.cause ≡ Cause.Value refusal.error) }
        ensures place { IfOk result (λ fault. base + refusal.at < 2 ^ 64 → fault.at ≡ base + refusal.at) }
    {
        let at = base.saturating_add(refusal.at);
        Ok(Fault {
            cause: Cause::Value(refusal.error),
            at,
            path: path_text(input, from, at, refusal.error, alloc)?,
        })
    }
}

impl Fault {
    /// The fault, with a place that counts from so many bytes later.
    pub fn moved_by(self, len: usize) -> Fault
        ensures { result.at ≡ self.at - len }
    {
        let Fault { cause, at, path } = self;
        Fault {
            cause,
            at: at.saturating_sub(len),
            path,
        }
    }
}
