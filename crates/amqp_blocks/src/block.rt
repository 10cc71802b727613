//! Blocks: the parts of an input.
ghost use Rattle.std.specs.Prelude.{◌≡◌, ℕ, IfOk, IfSome};
ghost use Rattle.amqp_outlines.specs.Spans.{IsOutline};
ghost use Rattle.amqp_blocks.specs.Blocks.{IsBlock, IsTile, StandsWithin};

use amqp_faults::Fault;
use amqp_frames::{FrameKind, ProtocolHeader};
use amqp_outlines::Entry;
use std::alloc::{AllocError, Global};

/// A range of bytes: the place of its first byte, and the place behind its last one.
pub type Span = (usize, usize);

/// What a block is of.
#[derive(Clone, Copy)]
pub enum Subject {
    /// A protocol header (Part 2, section 2.2).
    ProtocolHeader(ProtocolHeader),
    /// A frame (Part 2, section 2.3).
    Frame(FrameKind),
    /// Bytes that are no frame.
    NoFrame,
    /// The begin of a protocol header or of a frame.
    CutFrame,
    /// A section of a message (Part 3, section 3.2).
    Section,
    /// A term (Part 1, section 1.2).
    Term,
    /// Bytes that are behind all that is asked for.
    Rest,
}

/// A part of the input: a frame, a protocol header, a section or a term. It begins where the block before it ends, and the places in it
/// count from there.
#[derive(Drop)]
pub struct Block {
    /// What it is.
    pub subject: Subject,
    /// How many bytes it has.
    pub len: usize,
    /// The bytes of a frame's header that come after the first eight (Part 2, section 2.3.1).
    pub extended: Option<Span>,
    /// The entries of its value. There is none if the frame is empty, or if no term begins where the value does.
    pub value: Vec<Entry>,
    /// The bytes of a frame after the performative (Part 2, section 2.3.2).
    pub payload: Option<Span>,
    /// The entries of the sections of the message that the payload is.
    pub message: Vec<Entry>,
    /// What is wrong with it, if anything is.
    pub faults: Vec<Fault>,
}

impl Block {
    /// A block without a value and without faults.
    pub(crate) fn new(subject: Subject, len: usize, alloc: Global) -> Block
        ensures { (l m : ℕ) → IsBlock subject l m len result }
    {
        Block {
            subject,
            len,
            extended: None,
            value: Vec::new(alloc),
            payload: None,
            message: Vec::new(alloc),
            faults: Vec::new(alloc),
        }
    }

    /// The same with the entries of its value.
    pub(crate) fn with_value(mut self, value: Vec<Entry>) -> Block
        ensures { (s : Subject) (l m n : ℕ) → IsBlock s l m n self → IsOutline l m value.items → IsBlock s l m n result }
    {
        self.value = value;
        self
    }

    /// The same with the entries of the sections in its payload.
    pub(crate) fn with_message(mut self, message: Vec<Entry>) -> Block
        ensures { (s : Subject) (l m n : ℕ) → IsBlock s l m n self → IsOutline m n message.items → IsBlock s l m n result }
    {
        self.message = message;
        self
    }

    /// The same with one more fault, if there is one.
    pub(crate) fn with_fault(mut self, fault: Option<Fault>) -> Result<Block, AllocError>
        ensures { (s : Subject) (l m n : ℕ) → IsBlock s l m n self → IfSome fault (StandsWithin n) → IfOk result (IsBlock s l m n) }
    {
        if let Some(fault) = fault {
            self.faults.push(fault)?;
        }
        Ok(self)
    }

    /// The same with this payload.
    pub(crate) fn with_payload(self, payload: Option<Span>) -> Block
        ensures block { (s : Subject) (l m n : ℕ) → IsBlock s l m n self → IsBlock s l m n result }
        ensures payload { result.payload ≡ payload }
    {
        Block { payload, ..self }
    }

    /// The same as a whole frame, with these bytes of its header.
    pub(crate) fn as_frame(self, kind: FrameKind, extended: Option<Span>) -> Block
        ensures block { (s : Subject) (l m n : ℕ) → IsBlock s l m n self → IsBlock (Subject.Frame kind) l m n result }
        ensures extended { result.extended ≡ extended }
        ensures payload { result.payload ≡ self.payload }
    {
        Block {
            subject: Subject::Frame(kind),
            extended,
            ..self
        }
    }
}

/// Returns the span if it has a byte.
pub(crate) fn some_span(from: usize, to: usize) -> Option<Span>
    ensures { IsTile from to result }
{
    if from < to { Some((from, to)) } else { None }
}
