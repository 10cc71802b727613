//! The bodies of AMQP frames, written anew.
use crate::counts::{Counts, count};
use crate::fault::Cause;
use crate::limits::limits_for;
use crate::links::{Link, Links};
use crate::message::canonical_message;
use amqp_frames::{AmqpBody, Frame, FrameKind, Joined, write_empty_frame, write_frame};
use fe2o3_amqp_types::performatives::{Performative, Transfer};
use std::alloc::Global;

/// What has come of the links.
#[derive(Drop)]
pub(crate) struct Bodies {
    links: Links,
    max_frame_size: u32,
}

impl Bodies {
    pub(crate) fn new(max_frame_size: u32, alloc: Global) -> Bodies {
        Bodies {
            links: Links::new(alloc),
            max_frame_size,
        }
    }

    /// Appends the frame in canonical text to the output.
    pub(crate) fn relay(
        &mut self,
        frame: &Frame<'_>,
        output: &mut Vec<u8>,
        counts: &mut Counts,
        alloc: Global,
    ) -> Result<(), Cause> {
        let channel = channel_of(frame);
        let limits = limits_for(frame.body);
        match frame.amqp(&limits, alloc)? {
            Some(body) => self.relay_body(body, channel, output, counts, alloc),
            None => {
                count(&mut counts.empty);
                write_empty_frame(output, channel)?;
                Ok(())
            }
        }
    }

    fn relay_body(
        &mut self,
        body: AmqpBody<'_>,
        channel: u16,
        output: &mut Vec<u8>,
        counts: &mut Counts,
        alloc: Global,
    ) -> Result<(), Cause> {
        let AmqpBody {
            performative,
            payload,
        } = body;
        let alone = self.is_alone(&performative, channel);
        let frame = NewFrame {
            channel,
            performative: &performative,
            max_frame_size: self.max_frame_size,
        };
        let written = if alone {
            frame.write_message(payload, output, counts, alloc)
        } else {
            frame.write(payload, output, alloc)
        };
        match (performative, written) {
            (Performative::Transfer(transfer), Ok(())) => {
                let link = link_of(channel, &transfer);
                let joined = self.links.join(link, transfer, payload, alloc)?;
                count_joined(joined, alone, counts, alloc)
            }
            (other, written) => {
                drop(other);
                written
            }
        }
    }

    // Whether this is the only transfer of a delivery.
    fn is_alone(&self, performative: &Performative, channel: u16) -> bool {
        match performative {
            Performative::Transfer(transfer) => {
                let link = link_of(channel, transfer);
                !transfer.more && !transfer.aborted && !self.links.is_open(link)
            }
            _ => false,
        }
    }
}

// A frame that is written.
#[derive(Clone, Copy)]
struct NewFrame<'a> {
    channel: u16,
    performative: &'a Performative,
    max_frame_size: u32,
}

impl NewFrame<'_> {
    // Writes it with this payload.
    fn write(&self, payload: &[u8], output: &mut Vec<u8>, alloc: Global) -> Result<(), Cause> {
        write_frame(
            output,
            self.channel,
            self.performative,
            payload,
            self.max_frame_size,
            alloc,
        )?;
        Ok(())
    }

    // Writes it with a whole message, whose canonical text is written if it has one.
    fn write_message(
        &self,
        message: &[u8],
        output: &mut Vec<u8>,
        counts: &mut Counts,
        alloc: Global,
    ) -> Result<(), Cause> {
        match canonical_message(message, alloc)? {
            Some(text) => {
                count(&mut counts.rewritten);
                self.write(text.as_slice(), output, alloc)
            }
            None => {
                count(&mut counts.unread);
                self.write(message, output, alloc)
            }
        }
    }
}

// Counts what a transfer has made of its delivery. One whose message came in several transfers is read now.
fn count_joined(
    joined: Joined,
    alone: bool,
    counts: &mut Counts,
    alloc: Global,
) -> Result<(), Cause> {
    match joined {
        Joined::Whole(delivery) if !alone => {
            count(&mut counts.joined);
            if canonical_message(delivery.message.as_slice(), alloc)?.is_none() {
                count(&mut counts.unread);
            }
        }
        Joined::Aborted => count(&mut counts.aborted),
        _ => {}
    }
    Ok(())
}

fn channel_of(frame: &Frame<'_>) -> u16 {
    match frame.header.kind {
        FrameKind::Amqp { channel } => channel,
        FrameKind::Sasl => 0,
    }
}

fn link_of(channel: u16, transfer: &Transfer) -> Link {
    (channel, transfer.handle.0)
}
