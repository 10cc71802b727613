//! A frame that is written and read.
use crate::cases::{Way, Work};
use amqp_attach::Performative;
use amqp_frames::{BodyError, BodyFault, Frame, Step, WriteError, next_frame, write_frame};
use amqp_read_write::from_slice;
use amqp_wire::{Error, Limits};
use std::alloc::Global;

/// The most bytes of a frame.
const MAX_FRAME_SIZE: u32 = 65_536;

/// A performative that is written as a frame, or read from one.
#[derive(Drop)]
pub(crate) struct Framed {
    way: Way,
    performative: Performative,
    frame: Vec<u8>,
}

impl Framed {
    /// Returns the performative with this text, and its frame.
    pub(crate) fn new(way: Way, text: &[u8], alloc: Global) -> Result<Framed, Error> {
        let performative = from_slice(text, alloc)?;
        match frame_of(&performative, alloc) {
            Ok(frame) => Ok(Framed {
                way,
                performative,
                frame,
            }),
            Err(error) => {
                drop(performative);
                Err(error)
            }
        }
    }
}

impl Work for Framed {
    // How many bytes are written, or read as a frame.
    fn run(&self, alloc: Global) -> Result<u64, Error> {
        match self.way {
            Way::Writing => Ok(frame_of(&self.performative, alloc)?.len() as u64),
            Way::Reading => match next_frame(&self.frame, MAX_FRAME_SIZE) {
                Ok(Step::Frame(frame)) => read_body(&frame, alloc),
                _ => Err(Error::InvalidValue),
            },
        }
    }
}

// Writes the frame.
fn frame_of(performative: &Performative, alloc: Global) -> Result<Vec<u8>, Error> {
    let mut buffer = Vec::new(alloc);
    match write_frame(&mut buffer, 0, performative, &[], MAX_FRAME_SIZE, alloc) {
        Ok(_) => Ok(buffer),
        Err(WriteError::Value(error)) => Err(error),
        Err(WriteError::Frame(_)) => Err(Error::TooLarge),
    }
}

// Reads the body, and returns the size of the frame.
fn read_body(frame: &Frame<'_>, alloc: Global) -> Result<u64, Error> {
    match frame.amqp(&Limits::for_peers(u64::from(MAX_FRAME_SIZE)), alloc) {
        Ok(body) => {
            drop(body);
            Ok(u64::from(frame.header.size))
        }
        Err(
            BodyError {
                fault: BodyFault::Value(error),
                ..
            },
        ) => Err(error),
        Err(_) => Err(Error::InvalidValue),
    }
}
