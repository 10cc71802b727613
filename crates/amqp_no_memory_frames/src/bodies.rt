//! The bodies of frames, read.
use amqp_codec::Error;
use amqp_frames::{BodyError, BodyFault, Frame, SaslFrame, Step, next_frame};
use amqp_no_memory_calls::{check, is_text};
use amqp_wire::Limits;
use std::alloc::Global;

/// A frame on channel 0 with an open whose container-id is `a`.
pub(crate) const OPEN: [u8; 17] = [
    0, 0, 0, 17, 2, 0, 0, 0, 0, 0x53, 0x10, 0xc0, 4, 1, 0xa1, 1, b'a',
];

/// A SASL frame with a challenge of one byte.
pub(crate) const CHALLENGE: [u8; 17] = [
    0, 0, 0, 17, 2, 1, 0, 0, 0, 0x53, 0x42, 0xc0, 4, 1, 0xa0, 1, 9,
];

/// Makes all of these, and returns whether every call went as it must.
pub(crate) fn check_all(rt: &HostRuntime) -> Result<bool, anyhow::Error> {
    let mut well = check(rt, "open", "amqp", open_is_read)?;
    well &= check(rt, "challenge", "sasl", challenge_is_read)?;
    Ok(well)
}

fn open_is_read(alloc: Global) -> Result<bool, Error> {
    match next_frame(&OPEN, 512) {
        Ok(Step::Frame(frame)) => is_open(&frame, alloc),
        _ => Ok(false),
    }
}

fn is_open(frame: &Frame<'_>, alloc: Global) -> Result<bool, Error> {
    match frame.amqp(&Limits::greatest(), alloc) {
        Ok(Some(body)) => is_text(Ok(body.performative), &OPEN[8..], alloc),
        Ok(None) => Ok(false),
        Err(error) => Err(error_of(error)),
    }
}

fn challenge_is_read(alloc: Global) -> Result<bool, Error> {
    match next_frame(&CHALLENGE, 512) {
        Ok(Step::Frame(frame)) => is_challenge(&frame, alloc),
        _ => Ok(false),
    }
}

fn is_challenge(frame: &Frame<'_>, alloc: Global) -> Result<bool, Error> {
    match frame.sasl(&Limits::greatest(), alloc) {
        Ok(value) => is_text::<SaslFrame>(Ok(value), &CHALLENGE[8..], alloc),
        Err(error) => Err(error_of(error)),
    }
}

// The error of the value, or `InvalidValue` if the fault is another one.
fn error_of(error: BodyError) -> Error {
    match error.fault {
        BodyFault::Value(error) => error,
        _ => Error::InvalidValue,
    }
}
