//! Messages, section by section (Part 3, section 3.2).
ghost use Rattle.std.specs.Prelude.{◌≡◌, ◌≤◌, ◌-◌, ℕ, length, IfOk, IfSome, IfNone, true};
ghost use Rattle.amqp_outlines.specs.Spans.{IsOutline};
ghost use Rattle.amqp_blocks.specs.Blocks.{BeginsInput, IsAhead, StandsWithin};

use crate::block::{Block, Subject};
use crate::message_types::{AnyMessage, StrictMessage};
use crate::verdict::{Verdict, bytes_left, verdict_of};
use amqp_faults::{Bounds, Fault};
use amqp_outlines::{Entry, Outline, add_outline, outline_at};
use fe2o3_amqp_types::codec::{Deserialize, term_len};
use std::alloc::{AllocError, Global};

/// A message, as far as its sections have been seen.
#[derive(Drop)]
pub struct Sections {
    /// The fault of the whole message that has not been told yet. Its place counts from where the next section begins.
    pub fault: Option<Fault>,
}

impl Sections {
    /// The sections of the message that the input is, read within the bounds. The error is that of an allocation, as in all these calls.
    pub fn new(
        input: &[u8],
        is_strict: bool,
        bounds: &Bounds,
        alloc: Global,
    ) -> Result<Sections, AllocError>
        ensures { IfOk result (IsAhead (length input.now)) }
    {
        let fault = if is_strict {
            fault_of::<StrictMessage>(input, 0, bounds, alloc)?
        } else {
            fault_of::<AnyMessage>(input, 0, bounds, alloc)?
        };
        Ok(Sections { fault })
    }

    /// Returns the block of the section that the rest of the input begins with, or `None` behind the last one. A fault is told with the
    /// section that has it.
    pub fn next_block(&mut self, input: &[u8], alloc: Global) -> Result<Option<Block>, AllocError>
        ensures block { IsAhead (length input.now) self.old → IfOk result (λ found. IfSome found (BeginsInput input.now)) }
        ensures ahead { IsAhead (length input.now) self.old
            → IfOk result (λ found. IfSome found (λ block. IsAhead (length input.now - block.len) self.new)) }
        ensures none { IfOk result (λ found. IfNone found (length input.now ≡ 0)) }
    {
        if input.is_empty() && self.fault.is_none() {
            return Ok(None);
        }
        let Outline { entries, end } = outline_at(input, 0, alloc)?;
        let len = end.unwrap_or(input.len());
        let block = Block::new(Subject::Section, len, alloc).with_value(entries);
        let fault = self.take_fault(len, len >= input.len());
        Ok(Some(block.with_fault(fault)?))
    }

    // Takes the fault if it is in the next section, which has so many bytes.
    fn take_fault(&mut self, len: usize, is_last: bool) -> Option<Fault>
        ensures { (n : ℕ) → IsAhead n self.old → len ≤ n → (is_last ≡ true → n ≤ len)
            → IfSome result (StandsWithin len) × IsAhead (n - len) self.new }
    {
        let fault = self.fault.take()?;
        if fault.at < len || is_last {
            return Some(fault);
        }
        self.fault = Some(fault.moved_by(len));
        None
    }
}

/// Returns the entries of the sections of the message that begins at the place, up to the end of the bytes or to the first fault.
pub(crate) fn sections_of(
    bytes: &[u8],
    from: usize,
    alloc: Global,
) -> Result<Vec<Entry>, AllocError>
    ensures { from ≤ length bytes.now → IfOk result (λ entries. IsOutline from (length bytes.now) entries.items) }
{
    let mut entries = Vec::new(alloc);
    let mut at = from;
    'sections: for _ in from..bytes.len() {
        match add_outline(bytes, at, &mut entries, alloc)? {
            Some(end) if end < bytes.len() => at = end,
            _ => break,
        }
    }
    Ok(entries)
}

/// Returns the fault of the message that begins at the place and goes on to the end of the bytes, if it has one.
pub(crate) fn message_fault(
    bytes: &[u8],
    from: usize,
    bounds: &Bounds,
    alloc: Global,
) -> Result<Option<Fault>, AllocError>
    ensures { from ≤ length bytes.now → IfOk result (λ found. IfSome found (StandsWithin (length bytes.now))) }
{
    fault_of::<AnyMessage>(bytes, from, bounds, alloc)
}

// The fault of the message of type T that begins at the place and goes on to the end of the bytes, if it has one.
fn fault_of<T: Deserialize>(
    bytes: &[u8],
    from: usize,
    bounds: &Bounds,
    alloc: Global,
) -> Result<Option<Fault>, AllocError>
    ensures { from ≤ length bytes.now → IfOk result (λ found. IfSome found (StandsWithin (length bytes.now))) }
{
    let message = bytes.get(from..).unwrap_or_default();
    match verdict_of::<T>(message, &bounds.within(message), alloc) {
        Verdict::Value(len) => Ok(bytes_left(from.saturating_add(len), bytes.len(), alloc)),
        Verdict::Refused(refusal) => {
            let section = section_before(bytes, from, from.saturating_add(refusal.at));
            Ok(Some(Fault::of_term(refusal, bytes, from, section, alloc)?))
        }
    }
}

// Where the section begins that has the place `at`: the terms before it are passed over.
fn section_before(bytes: &[u8], from: usize, at: usize) -> usize {
    let mut section = from;
    'sections: for _ in from..at {
        let Ok(len) = term_len(bytes.get(section..).unwrap_or_default()) else {
            break;
        };
        let next = section.saturating_add(len);
        if next > at {
            break;
        }
        section = next;
    }
    section
}
