//! What reading bytes comes to: the length of a value or of a term, or why there is none.
ghost use Rattle.std.specs.Prelude.{length, IfSome};
ghost use Rattle.amqp_blocks.specs.Blocks.{StandsWithin};
ghost use Rattle.amqp_blocks.specs.Verdicts.{IsVerdict, IsTermVerdict, EndsWithin};

use amqp_faults::{Cause, Fault};
use fe2o3_amqp_types::codec::{Deserialize, Limits, Refusal, from_slice_located, term_len_located};
use std::alloc::Global;

/// What reading bytes as a value has come to.
#[derive(Clone, Copy)]
pub(crate) enum Verdict {
    /// They begin with a value of so many bytes.
    Value(usize),
    /// They begin with none, and this is why.
    Refused(Refusal),
}

/// Returns what is wrong if the value ends at the place, and bytes are left of the input, which has so many.
pub(crate) fn bytes_left(end: usize, len: usize, alloc: Global) -> Option<Fault>
    ensures { IfSome result (StandsWithin len) }
{
    if end < len {
        Some(Fault::at(Cause::BytesLeft, end, alloc))
    } else {
        None
    }
}

/// Reads the bytes as a value of type T.
pub(crate) fn verdict_of<T: Deserialize>(bytes: &[u8], limits: &Limits, alloc: Global) -> Verdict
    ensures verdict { IsVerdict limits.now T.reading bytes.now result }
    ensures within { EndsWithin (length bytes.now) result }
{
    match from_slice_located::<T>(bytes, limits, alloc) {
        Ok(read) => {
            let (value, len) = read;
            drop(value);
            Verdict::Value(len)
        }
        Err(refusal) => Verdict::Refused(refusal),
    }
}

/// Reads the bytes as a term of any type (Part 1, section 1.2).
pub(crate) fn verdict_of_term(bytes: &[u8]) -> Verdict
    ensures verdict { IsTermVerdict bytes.now result }
    ensures within { EndsWithin (length bytes.now) result }
{
    match term_len_located(bytes) {
        Ok(len) => Verdict::Value(len),
        Err(refusal) => Verdict::Refused(refusal),
    }
}
