//! Canonical texts within limits.
ghost use Rattle.std.specs.Prelude.{◌≡◌, ◌≤◌, ◌⊎◌, length, IfOk, IfErr};
ghost use Rattle.amqp_wire.specs.declared.error.Error.TheVariants.{Memory};
ghost use Rattle.amqp_read_write.specs.Rewritten.{IsRewrittenWithin};
ghost use Rattle.amqp_catalogue.specs.NamedTypes.{IsText, HasNoText, HasNoTextWithin};

use amqp_catalogue::types::*;
use amqp_catalogue::{TypeName, types};
use amqp_codec::{Canonical, Error};
use amqp_read_write::{Limits, canonical_text_within};
use std::alloc::Global;

// Returns the canonical text of the value at the start of the input, within the limits, and the number of bytes that the value takes
// there. An error is `Memory`, a fault of an input that begins with no value within the limits, or `TooLarge`.
fn text_within<T: Canonical>(
    input: &[u8],
    limits: &Limits,
    alloc: Global,
) -> Result<(Vec<u8>, usize), Error>
    ensures text { IfOk result (λ r. IsRewrittenWithin limits.now T.reading T.writing.canons input.now r.0.items r.1) }
    ensures within { IfOk result (λ r. r.1 ≤ length input.now) }
    ensures refused { IfErr result (λ e. (e ≡ Memory) ⊎ HasNoTextWithin limits.now T.reading T.writing.canons input.now e) }
{
    canonical_text_within::<T>(input, limits, alloc)
}

/// Returns the canonical text of the value at the start of the input, of the named type and within the limits, and the number of bytes that
/// the value takes.
pub(crate) fn canonical_text(
    named: TypeName,
    input: &[u8],
    limits: &Limits,
    alloc: Global,
) -> Result<(Vec<u8>, usize), Error>
    ensures text { IfOk result (λ r. IsText limits.now named input.now r.0.items r.1) }
    ensures within { IfOk result (λ r. r.1 ≤ length input.now) }
    ensures refused { IfErr result (λ e. (e ≡ Memory) ⊎ HasNoText limits.now named input.now e) }
{
    types!(named, text_within(input, limits, alloc))
}
