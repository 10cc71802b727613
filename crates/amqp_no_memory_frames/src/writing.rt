//! Frames, written.
use crate::bodies::{CHALLENGE, OPEN};
use amqp_attach::Performative;
use amqp_codec::Error;
use amqp_frames::{SaslFrame, WriteError, write_empty_frame, write_frame, write_sasl_frame};
use amqp_no_memory_calls::check;
use amqp_read_write::from_slice;
use std::alloc::Global;

/// An empty frame on channel 1.
const EMPTY: [u8; 8] = [0, 0, 0, 8, 2, 0, 0, 1];

/// Makes all of these, and returns whether every call went as it must.
pub(crate) fn check_all(rt: &HostRuntime) -> Result<bool, anyhow::Error> {
    let mut well = check(rt, "open", "write_frame", open_is_written)?;
    well &= check(rt, "challenge", "write_sasl_frame", challenge_is_written)?;
    well &= check(
        rt,
        "empty frame",
        "write_empty_frame",
        empty_frame_is_written,
    )?;
    Ok(well)
}

fn open_is_written(alloc: Global) -> Result<bool, Error> {
    let performative = from_slice::<Performative>(&OPEN[8..], alloc)?;
    let mut buffer = one_byte(alloc)?;
    let written = write_frame(&mut buffer, 0, &performative, &[], 512, alloc);
    drop(performative);
    is_appended(&buffer, &OPEN, written)
}

fn challenge_is_written(alloc: Global) -> Result<bool, Error> {
    let value = from_slice::<SaslFrame>(&CHALLENGE[8..], alloc)?;
    let mut buffer = one_byte(alloc)?;
    let written = write_sasl_frame(&mut buffer, &value, alloc);
    drop(value);
    is_appended(&buffer, &CHALLENGE, written)
}

fn empty_frame_is_written(alloc: Global) -> Result<bool, Error> {
    let mut buffer = one_byte(alloc)?;
    let written = write_empty_frame(&mut buffer, 1);
    is_appended(&buffer, &EMPTY, written)
}

// A buffer with one byte.
fn one_byte(alloc: Global) -> Result<Vec<u8>, Error> {
    let mut buffer = Vec::new(alloc);
    buffer.push(7)?;
    Ok(buffer)
}

// Whether the frame is after the byte. If an allocation failed, the byte alone is there.
fn is_appended(
    buffer: &[u8],
    frame: &[u8],
    written: Result<usize, WriteError>,
) -> Result<bool, Error> {
    match (buffer, written) {
        ([7, rest @ ..], Ok(len)) => Ok(len == frame.len() && rest == frame),
        ([7], Err(WriteError::Value(error))) => Err(error),
        _ => Ok(false),
    }
}
