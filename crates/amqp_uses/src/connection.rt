//! A filter of the bytes that one side of a connection sends: it finds each frame's performative, or where the bytes are wrong.
ghost use Rattle.std.specs.Prelude.{◌≡◌, IfOk, IfErr};
ghost use Rattle.amqp_uses.specs.Passing.{IsPassed, IsFault};

use amqp_frames::{AmqpBody, Step, next_frame};
use fe2o3_amqp_types::codec::Limits;
use std::alloc::Global;

/// What the bytes begin with.
#[derive(Drop)]
pub enum Passed<'a> {
    /// No whole frame: at least so many more bytes are needed.
    Needs(usize),
    /// An empty frame of so many bytes.
    Empty(usize),
    /// A performative and its payload, in a frame of so many bytes.
    Performative(AmqpBody<'a>, usize),
}

/// Where the bytes are wrong, and what the peer is told.
#[derive(Clone, Copy, Debug, PartialEq, Eq)]
pub struct Fault {
    /// The place, in bytes from the start of the frame.
    pub at: usize,
    /// The error condition.
    pub condition: &'static str,
}

/// Returns what the bytes begin with that no frame has taken yet. If a frame comes next, the caller takes its bytes, and calls again with
/// the rest. If more bytes are needed, it waits for them. So the frames and the fault are the same however the bytes come.
pub fn next_performative<'a>(
    input: &'a [u8],
    max_frame_size: u32,
    limits: &Limits,
    alloc: Global,
) -> Result<Passed<'a>, Fault>
    ensures passed { IfOk result (IsPassed limits.now max_frame_size input.now) }
    ensures refused { IfErr result (λ fault. IsFault limits.now max_frame_size input.now fault.at fault.condition.now) }
{
    let frame = match next_frame(input, max_frame_size) {
        Ok(Step::Frame(frame)) => frame,
        Ok(Step::Needs(count)) => return Ok(Passed::Needs(count)),
        Err(error) => {
            return Err(Fault {
                at: error.at(),
                condition: error.condition(),
            });
        }
    };
    let len = frame.header.size as usize;
    match frame.amqp(limits, alloc) {
        Ok(Some(body)) => Ok(Passed::Performative(body, len)),
        Ok(None) => Ok(Passed::Empty(len)),
        Err(fault) => Err(Fault {
            at: fault.at,
            condition: fault.condition(),
        }),
    }
}
