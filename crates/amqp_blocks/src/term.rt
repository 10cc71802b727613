//! One term, or one value of a type.
ghost use Rattle.std.specs.Prelude.{◌≡◌, length, IfOk, IfSome, IfNone};
ghost use Rattle.amqp_blocks.specs.Blocks.{BeginsInput};
ghost use Rattle.amqp_blocks.specs.Verdicts.{EndsWithin};

use crate::block::{Block, Subject};
use crate::verdict::{Verdict, verdict_of, verdict_of_term};
use amqp_catalogue::{TypeName, types};
use amqp_faults::{Bounds, Cause, Fault};
use amqp_outlines::{Outline, outline_at};
use fe2o3_amqp_types::codec::{LazyValue, Limits};
use std::alloc::{AllocError, Global};

/// A term of any type, or of the type that is named, and what is behind it.
#[derive(Clone, Copy)]
pub struct Term {
    named: Option<TypeName>,
    bounds: Bounds,
    is_told: bool,
}

impl Term {
    /// A term, of the type that is named if there is a name, read within the bounds.
    pub fn new(named: Option<TypeName>, bounds: Bounds) -> Term {
        Term {
            named,
            bounds,
            is_told: false,
        }
    }

    /// Returns the block of the term, and then one of the bytes that are behind it, if there are any.
    pub fn next_block(&mut self, input: &[u8], alloc: Global) -> Result<Option<Block>, AllocError>
        ensures block { IfOk result (λ found. IfSome found (BeginsInput input.now)) }
        ensures none { IfOk result (λ found. IfNone found (length input.now ≡ 0)) }
    {
        if !self.is_told {
            self.is_told = true;
            return Ok(Some(self.term_block(input, alloc)?));
        }
        if input.is_empty() {
            return Ok(None);
        }
        let fault = Fault::at(Cause::BytesLeft, 0, alloc);
        let block = Block::new(Subject::Rest, input.len(), alloc).with_fault(Some(fault))?;
        Ok(Some(block))
    }

    // The term at the start of the input.
    fn term_block(&self, input: &[u8], alloc: Global) -> Result<Block, AllocError>
        ensures { IfOk result (BeginsInput input.now) }
    {
        let Outline { entries, end } = outline_at(input, 0, alloc)?;
        let outlined = end.unwrap_or(input.len());
        match self.verdict(input, alloc) {
            Verdict::Value(end) => {
                Ok(Block::new(Subject::Term, end.max(outlined), alloc).with_value(entries))
            }
            Verdict::Refused(refusal) => {
                let fault = Fault::of_term(refusal, input, 0, 0, alloc)?;
                Block::new(Subject::Term, outlined.max(fault.at), alloc)
                    .with_value(entries)
                    .with_fault(Some(fault))
            }
        }
    }

    // What reading the input has come to.
    fn verdict(&self, input: &[u8], alloc: Global) -> Verdict
        ensures { EndsWithin (length input.now) result }
    {
        let limits = self.bounds.within(input);
        match self.named {
            Some(named) => verdict_of_type(named, input, &limits, alloc),
            None if self.bounds == Bounds::DEFAULT => verdict_of_term(input),
            None => verdict_of::<LazyValue>(input, &limits, alloc),
        }
    }
}

// Reads the input as a value of the type that is named.
fn verdict_of_type(named: TypeName, input: &[u8], limits: &Limits, alloc: Global) -> Verdict
    ensures { EndsWithin (length input.now) result }
{
    use amqp_catalogue::types::*;
    types!(named, verdict_of(input, limits, alloc))
}
