//! One direction of a connection, as it comes.
use crate::fault::{Cause, Fault};
use crate::frames::Frames;
use std::alloc::Global;

/// What has come of one direction.
#[derive(Drop)]
pub(crate) struct Direction {
    pub(crate) frames: Frames,
    // The bytes that no frame and no header has taken yet.
    rest: Vec<u8>,
}

impl Direction {
    pub(crate) fn new(max_frame_size: u32, alloc: Global) -> Direction {
        Direction {
            frames: Frames::new(max_frame_size, alloc),
            rest: Vec::new(alloc),
        }
    }

    /// Takes bytes that have come, and appends each frame and each header that is whole now to the output.
    pub(crate) fn take(
        &mut self,
        bytes: &[u8],
        output: &mut Vec<u8>,
        alloc: Global,
    ) -> Result<(), Fault> {
        if self.rest.extend_from_slice(bytes).is_err() {
            return Err(self.frames.fault(Cause::Memory));
        }
        let mut rest = self.rest.as_slice();
        for _ in 0..self.rest.len() {
            match self.frames.relay(rest, output, alloc) {
                Ok(Some(len)) => rest = rest.get(len..).unwrap_or_default(),
                Ok(None) => break,
                Err(cause) => return Err(self.frames.fault(cause)),
            }
        }
        let taken = self.rest.len().saturating_sub(rest.len());
        self.rest.drain(..taken);
        Ok(())
    }

    /// Refuses an input that ends here, within a frame or a header.
    pub(crate) fn end(&self) -> Result<(), Fault> {
        if self.rest.is_empty() {
            Ok(())
        } else {
            Err(self.frames.fault(Cause::Ended))
        }
    }
}
