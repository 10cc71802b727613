//! Protocol headers and frames, relayed one after another.
use crate::bodies::Bodies;
use crate::counts::{Counts, count};
use crate::fault::{Cause, Fault};
use crate::limits::limits_for;
use amqp_frames::{
    Frame, HeaderStep, ProtocolId, Step, next_frame, next_protocol_header, write_sasl_frame,
};
use std::alloc::Global;

/// What comes next.
#[derive(Clone, Copy, Debug, PartialEq, Eq)]
enum Expected {
    Header,
    // After a header with the protocol id of SASL: frames of that type, and then a header.
    SaslFrameOrHeader,
    AmqpFrame,
}

/// What has come so far.
#[derive(Drop)]
pub(crate) struct Frames {
    pub(crate) counts: Counts,
    expected: Expected,
    bodies: Bodies,
    max_frame_size: u32,
}

impl Frames {
    pub(crate) fn new(max_frame_size: u32, alloc: Global) -> Frames {
        Frames {
            counts: Counts::default(),
            expected: Expected::Header,
            bodies: Bodies::new(max_frame_size, alloc),
            max_frame_size,
        }
    }

    /// Returns a fault of what comes next.
    pub(crate) fn fault(&self, cause: Cause) -> Fault {
        Fault {
            cause,
            at: self.counts.read,
        }
    }

    /// Appends the header or the frame that the input begins with to the output, and returns its length in the input, or `None` if it isn't
    /// whole.
    pub(crate) fn relay(
        &mut self,
        input: &[u8],
        output: &mut Vec<u8>,
        alloc: Global,
    ) -> Result<Option<usize>, Cause> {
        let before = output.len();
        let relayed = if self.awaits_header(input) {
            self.relay_header(input, output)?
        } else {
            self.relay_frame(input, output, alloc)?
        };
        let written = output.len().saturating_sub(before);
        self.counts.add_bytes(relayed.unwrap_or(0), written);
        Ok(relayed)
    }

    // Whether a header comes next. No frame begins with the name of a header, since its size would be above every sane maximum.
    fn awaits_header(&self, input: &[u8]) -> bool {
        match self.expected {
            Expected::Header => true,
            Expected::SaslFrameOrHeader => input.starts_with(b"AMQP"),
            Expected::AmqpFrame => false,
        }
    }

    fn relay_header(&mut self, input: &[u8], output: &mut Vec<u8>) -> Result<Option<usize>, Cause> {
        let HeaderStep::Header(header) = next_protocol_header(input)? else {
            return Ok(None);
        };
        let bytes = header.to_bytes();
        output.extend_from_slice(&bytes)?;
        count(&mut self.counts.headers);
        self.expected = expected_after(header.id);
        Ok(Some(bytes.len()))
    }

    fn relay_frame(
        &mut self,
        input: &[u8],
        output: &mut Vec<u8>,
        alloc: Global,
    ) -> Result<Option<usize>, Cause> {
        let Step::Frame(frame) = next_frame(input, self.max_frame_size)? else {
            return Ok(None);
        };
        if self.expected == Expected::AmqpFrame {
            self.bodies.relay(&frame, output, &mut self.counts, alloc)?;
        } else {
            relay_sasl(&frame, output, alloc)?;
        }
        count(&mut self.counts.frames);
        Ok(Some(frame.header.size as usize))
    }
}

// What comes after a header with this id.
fn expected_after(id: ProtocolId) -> Expected {
    if id == ProtocolId::AMQP {
        Expected::AmqpFrame
    } else if id == ProtocolId::SASL {
        Expected::SaslFrameOrHeader
    } else {
        Expected::Header
    }
}

fn relay_sasl(frame: &Frame<'_>, output: &mut Vec<u8>, alloc: Global) -> Result<(), Cause> {
    let limits = limits_for(frame.body);
    let value = frame.sasl(&limits, alloc)?;
    let written = write_sasl_frame(output, &value, alloc);
    drop(value);
    match written {
        Ok(_) => Ok(()),
        Err(error) => Err(Cause::Written(error)),
    }
}
