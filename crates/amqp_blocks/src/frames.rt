//! The protocol headers and frames of one direction of a connection (Part 2, sections 2.2 and 2.3; Part 5, section 5.3.1).
ghost use Rattle.std.specs.Prelude.{◌≤◌, ◌+◌, ℕ, length, IfOk, IfSome, IfNone};
ghost use Rattle.amqp_frames.specs.FrameErrors.{place_of};
ghost use Rattle.amqp_frames.specs.Frames.{BeginsWithFrame};
ghost use Rattle.amqp_blocks.specs.declared.block.Subject.{Subject};
ghost use Rattle.amqp_blocks.specs.Blocks.{BeginsInput, IsAllTold, IsBlock, HasBody, HasValue, StandsWithin, IfRefused};

use crate::block::{Block, Subject, some_span};
use crate::message::{message_fault, sections_of};
use crate::verdict::{Verdict, bytes_left, verdict_of};
use amqp_faults::{Bounds, Cause, Fault};
use amqp_frames::{
    Frame, FrameError, FrameKind, HeaderStep, SaslFrame, Step, next_frame, next_protocol_header,
};
use amqp_outlines::{Outline, outline_at};
use fe2o3_amqp_types::codec::{Refusal, from_slice_located};
use fe2o3_amqp_types::performatives::{Performative, Transfer};
use std::alloc::{AllocError, Global};
use std::collections::BTreeSet;

/// One direction of a connection, as far as it has been seen.
#[derive(Drop)]
pub struct Frames {
    max_frame_size: u32,
    bounds: Bounds,
    // The links on which more transfers of a delivery are to come: channels and handles.
    open_links: BTreeSet<(u16, u32)>,
}

// What reading a performative has come to.
#[derive(Clone, Copy)]
enum Performed {
    // It is a transfer whose payload is a whole message.
    WithMessage,
    // It is any other one.
    Other,
    // There is none, and this is why.
    Refused(Refusal),
}

impl Performed {
    fn of_transfer(is_whole_message: bool) -> Performed
        ensures { IfRefused (λ refusal. ⊥) result }
    {
        if is_whole_message {
            Performed::WithMessage
        } else {
            Performed::Other
        }
    }
}

impl Frames {
    /// A direction of which nothing has been seen. A frame of more than `max_frame_size` bytes is a fault; values are read within the bounds.
    pub fn new(max_frame_size: u32, bounds: Bounds, alloc: Global) -> Frames {
        Frames {
            max_frame_size,
            bounds,
            open_links: BTreeSet::new(alloc),
        }
    }

    /// Returns the block of the protocol header or the frame that these bytes begin with. It is `None` if there are no bytes, or if more
    /// are needed and the input doesn't end with them.
    pub fn next_block(
        &mut self,
        input: &[u8],
        is_end: bool,
        alloc: Global,
    ) -> Result<Option<Block>, AllocError>
        ensures block { IfOk result (λ found. IfSome found (BeginsInput input.now)) }
        ensures none { IfOk result (λ found. IfNone found (IsAllTold input.now is_end)) }
    {
        if input.is_empty() {
            return Ok(None);
        }
        if input.starts_with(b"AMQP") {
            return header_block(input, is_end, alloc);
        }
        match next_frame(input, self.max_frame_size) {
            Ok(Step::Frame(frame)) => Ok(Some(self.whole_frame(input, &frame, alloc)?)),
            Ok(Step::Needs(count)) if is_end => Ok(Some(cut_frame(input, count, alloc)?)),
            Ok(Step::Needs(_)) => Ok(None),
            Err(error) => broken_block(input, is_end, error, alloc),
        }
    }

    fn whole_frame(
        &mut self,
        input: &[u8],
        frame: &Frame<'_>,
        alloc: Global,
    ) -> Result<Block, AllocError>
        requires { (max : ℕ) × BeginsWithFrame max input.now frame.now.header frame.now.extended.now frame.now.body.now }
        ensures { IfOk result (BeginsInput input.now) }
    {
        let len = (frame.header.size as usize).min(input.len());
        let body_at = len.saturating_sub(frame.body.len());
        let block = self.frame_block(&input[..len], body_at, frame.header.kind, alloc)?;
        Ok(block.as_frame(frame.header.kind, some_span(8, body_at)))
    }

    // A frame of these bytes, whose body begins at the place.
    fn frame_block(
        &mut self,
        bytes: &[u8],
        body_at: usize,
        kind: FrameKind,
        alloc: Global,
    ) -> Result<Block, AllocError>
        ensures { body_at ≤ length bytes.now → IfOk result (HasBody body_at (length bytes.now)) }
    {
        let (block, end) = self.body_block(bytes, body_at, kind, alloc)?;
        Ok(block.with_payload(some_span(end, bytes.len())))
    }

    // The same without its payload, and where the payload begins.
    fn body_block(
        &mut self,
        bytes: &[u8],
        body_at: usize,
        kind: FrameKind,
        alloc: Global,
    ) -> Result<(Block, usize), AllocError>
        ensures { body_at ≤ length bytes.now → IfOk result (HasValue body_at (length bytes.now)) }
    {
        let len = bytes.len();
        match kind {
            FrameKind::Amqp { .. } if body_at >= len => {
                Ok((Block::new(Subject::NoFrame, len, alloc), len))
            }
            FrameKind::Amqp { channel } => self.amqp_block(bytes, body_at, channel, alloc),
            FrameKind::Sasl => {
                let block = sasl_block(bytes, body_at, &self.bounds, alloc)?;
                Ok((block, len))
            }
        }
    }

    // A frame with a performative and the message that its payload is, and where the payload begins.
    fn amqp_block(
        &mut self,
        bytes: &[u8],
        at: usize,
        channel: u16,
        alloc: Global,
    ) -> Result<(Block, usize), AllocError>
        ensures { at ≤ length bytes.now → IfOk result (HasValue at (length bytes.now)) }
    {
        let (block, end) = value_block(bytes, at, alloc)?;
        let body = bytes.get(at..).unwrap_or_default();
        let block = match self.read_performative(body, channel, alloc)? {
            Performed::WithMessage if end < bytes.len() => {
                with_sections(block, bytes, end, &self.bounds, alloc)?
            }
            Performed::WithMessage | Performed::Other => block,
            Performed::Refused(refusal) => with_refusal(block, refusal, bytes, at, alloc)?,
        };
        Ok((block, end))
    }

    // Reads the performative that a body begins with.
    fn read_performative(
        &mut self,
        body: &[u8],
        channel: u16,
        alloc: Global,
    ) -> Result<Performed, AllocError>
        ensures { IfOk result (IfRefused (λ refusal. refusal.at ≤ length body.now)) }
    {
        let limits = self.bounds.within(body);
        match from_slice_located::<Performative>(body, &limits, alloc) {
            Ok(read) => {
                let (performative, _) = read;
                self.take_performative(performative, channel)
            }
            Err(refusal) => Ok(Performed::Refused(refusal)),
        }
    }

    // Takes the performative of a frame on the channel.
    fn take_performative(
        &mut self,
        performative: Performative,
        channel: u16,
    ) -> Result<Performed, AllocError>
        ensures { IfOk result (IfRefused (λ refusal. ⊥)) }
    {
        match performative {
            Performative::Transfer(transfer) => {
                let is_whole = self.is_whole_message(channel, &transfer)?;
                drop(transfer);
                Ok(Performed::of_transfer(is_whole))
            }
            other => {
                drop(other);
                Ok(Performed::Other)
            }
        }
    }

    // Whether the payload of this transfer is a whole message: it is the first transfer of its delivery and the last one (Part 2,
    // section 2.7.5).
    fn is_whole_message(&mut self, channel: u16, transfer: &Transfer) -> Result<bool, AllocError> {
        let link = (channel, transfer.handle.0);
        let goes_on = transfer.more && !transfer.aborted;
        let is_first = !self.open_links.contains(&link);
        if goes_on {
            self.open_links.insert(link)?;
        } else {
            self.open_links.remove(&link);
        }
        Ok(is_first && !goes_on && !transfer.aborted)
    }
}

// A block of these bytes with the value that begins at the place, and where the value ends. If none begins there, this is the end of the
// bytes; the fault is found by reading the value.
fn value_block(bytes: &[u8], at: usize, alloc: Global) -> Result<(Block, usize), AllocError>
    ensures { at ≤ length bytes.now → IfOk result (HasValue at (length bytes.now)) }
{
    let Outline { entries, end } = outline_at(bytes, at, alloc)?;
    let block = Block::new(Subject::NoFrame, bytes.len(), alloc).with_value(entries);
    Ok((block, end.unwrap_or(bytes.len())))
}

// The block of these bytes with the message that begins at the place.
fn with_sections(
    block: Block,
    bytes: &[u8],
    from: usize,
    bounds: &Bounds,
    alloc: Global,
) -> Result<Block, AllocError>
    ensures { (s : Subject) (l : ℕ) → from ≤ length bytes.now → IsBlock s l from (length bytes.now) block
        → IfOk result (IsBlock s l from (length bytes.now)) }
{
    let sections = sections_of(bytes, from, alloc)?;
    let fault = message_fault(bytes, from, bounds, alloc)?;
    block.with_message(sections).with_fault(fault)
}

// The block of these bytes with the fault of the value that would begin at the place.
fn with_refusal(
    block: Block,
    refusal: Refusal,
    bytes: &[u8],
    at: usize,
    alloc: Global,
) -> Result<Block, AllocError>
    ensures { (s : Subject) (l m : ℕ) → at + refusal.at ≤ length bytes.now → IsBlock s l m (length bytes.now) block
        → IfOk result (IsBlock s l m (length bytes.now)) }
{
    let fault = Fault::of_term(refusal, bytes, at, at, alloc)?;
    block.with_fault(Some(fault))
}

// A frame whose body is the value of a SASL frame, and nothing else (Part 5, section 5.3.1).
fn sasl_block(bytes: &[u8], at: usize, bounds: &Bounds, alloc: Global) -> Result<Block, AllocError>
    ensures { at ≤ length bytes.now → IfOk result (IsBlock Subject.NoFrame at (length bytes.now) (length bytes.now)) }
{
    let Outline { entries, .. } = outline_at(bytes, at, alloc)?;
    let fault = sasl_fault(bytes, at, bounds, alloc)?;
    Block::new(Subject::NoFrame, bytes.len(), alloc)
        .with_value(entries)
        .with_fault(fault)
}

// What is wrong with the body of a SASL frame, if anything is.
fn sasl_fault(
    bytes: &[u8],
    at: usize,
    bounds: &Bounds,
    alloc: Global,
) -> Result<Option<Fault>, AllocError>
    ensures { at ≤ length bytes.now → IfOk result (λ found. IfSome found (StandsWithin (length bytes.now))) }
{
    let body = bytes.get(at..).unwrap_or_default();
    if body.is_empty() {
        return Ok(Some(Fault::at(Cause::EmptySasl, at, alloc)));
    }
    match verdict_of::<SaslFrame>(body, &bounds.within(body), alloc) {
        Verdict::Value(len) => Ok(bytes_left(at.saturating_add(len), bytes.len(), alloc)),
        Verdict::Refused(refusal) => Ok(Some(Fault::of_term(refusal, bytes, at, at, alloc)?)),
    }
}

// The protocol header that the input begins with.
fn header_block(input: &[u8], is_end: bool, alloc: Global) -> Result<Option<Block>, AllocError>
    ensures block { IfOk result (λ found. IfSome found (BeginsInput input.now)) }
    ensures none { IfOk result (λ found. IfNone found (IsAllTold input.now is_end)) }
{
    match next_protocol_header(input) {
        Ok(HeaderStep::Header(header)) => {
            Ok(Some(Block::new(Subject::ProtocolHeader(header), 8, alloc)))
        }
        Ok(HeaderStep::Needs(count)) if is_end => Ok(Some(cut_block(input, count, alloc)?)),
        Ok(HeaderStep::Needs(_)) => Ok(None),
        Err(error) => broken_block(input, is_end, error, alloc),
    }
}

// A protocol header or a frame whose end is missing.
fn cut_block(input: &[u8], count: usize, alloc: Global) -> Result<Block, AllocError>
    ensures { (l m : ℕ) → IfOk result (IsBlock Subject.CutFrame l m (length input.now)) }
{
    let fault = Fault::at(Cause::Ended(count), input.len(), alloc);
    Block::new(Subject::CutFrame, input.len(), alloc).with_fault(Some(fault))
}

// A frame whose end is missing, with what there is of its body.
fn cut_frame(input: &[u8], count: usize, alloc: Global) -> Result<Block, AllocError>
    ensures { IfOk result (BeginsInput input.now) }
{
    let block = cut_block(input, count, alloc)?;
    let Some(data_offset) = input.get(4) else {
        return Ok(block);
    };
    let at = usize::from(*data_offset).saturating_mul(4).min(input.len());
    let Outline { entries, .. } = outline_at(input, at, alloc)?;
    Ok(block.with_value(entries))
}

// Bytes whose first eight are no frame's header. If they begin with a size, and the input has so many bytes, the next frame is behind them.
fn broken_block(
    input: &[u8],
    is_end: bool,
    error: FrameError,
    alloc: Global,
) -> Result<Option<Block>, AllocError>
    requires { place_of error ≤ length input.now }
    ensures block { IfOk result (λ found. IfSome found (BeginsInput input.now)) }
    ensures none { IfOk result (λ found. IfNone found (IsAllTold input.now is_end)) }
{
    let len = match announced_size(input) {
        Some(size) if size <= input.len() => size,
        Some(_) if !is_end => return Ok(None),
        _ => input.len(),
    };
    let fault = Fault::of_frame(error, alloc)?;
    let block = Block::new(Subject::NoFrame, len, alloc).with_fault(Some(fault))?;
    Ok(Some(block))
}

// The size that the bytes begin with, if a frame may have it.
fn announced_size(input: &[u8]) -> Option<usize>
    ensures { IfSome result (λ size. 8 ≤ size) }
{
    let [a, b, c, d, ..] = input else {
        return None;
    };
    let size = u32::from_be_bytes([*a, *b, *c, *d]) as usize;
    if size < 8 { None } else { Some(size) }
}
