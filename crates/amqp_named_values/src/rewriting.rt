//! Reading and rewriting as the type that is named.
ghost use Rattle.std.specs.Prelude.{◌≡◌, ◌≤◌, ◌⊎◌, List, ℕ, length, IfOk, IfErr, OnErr};
ghost use Rattle.amqp_wire.specs.declared.error.Error.TheVariants.{Memory};
ghost use Rattle.amqp_catalogue.specs.NamedTypes.{IsText};
ghost use Rattle.amqp_read_write.specs.Rewritten.{IsRewrittenWithin};
ghost use Rattle.amqp_read_write.specs.Room.{IsPlaced};
ghost use Rattle.amqp_named_values.specs.Rewriting.{IsLengthWithin, IsLengthOf, IsUnreadableAt, HasNoLength, HasNoTextAt, HasNoText};

use amqp_catalogue::types::*;
use amqp_catalogue::{TypeName, types};
use amqp_read_write::{from_slice_located, write_into};
use amqp_wire::Refusal;
use fe2o3_amqp_types::codec::{Canonical, Deserialize, Limits};
use std::alloc::Global;

// How many bytes the value takes that the input begins with, within the limits.
fn len_within<T: Deserialize>(
    input: &[u8],
    limits: &Limits,
    alloc: Global,
) -> Result<usize, Refusal>
    ensures found { IfOk result (λ n. IsLengthWithin limits.now T.reading input.now n) }
    ensures refused { IfErr result (λ r. (r.error ≡ Memory) ⊎ IsUnreadableAt limits.now T.reading input.now r) }
    ensures within { IfErr result (λ r. r.at ≤ length input.now) }
{
    let (_value, len) = from_slice_located::<T>(input, limits, alloc)?;
    Ok(len)
}

/// Returns how many bytes the value at the start of the input takes, of the named type and within the limits. A refusal has the place of the
/// fault; if an allocation fails, its error is `Memory`.
pub fn len_of_value(
    named: TypeName,
    input: &[u8],
    limits: &Limits,
    alloc: Global,
) -> Result<usize, Refusal>
    ensures found { IfOk result (λ n. IsLengthOf named limits.now input.now n) }
    ensures refused { IfErr result (λ r. (r.error ≡ Memory) ⊎ HasNoLength named limits.now input.now r) }
    ensures within { IfErr result (λ r. r.at ≤ length input.now) }
{
    types!(named, len_within(input, limits, alloc))
}

// Writes the canonical text of the value that the input begins with, within the limits, to the start of the room. It returns the text's
// length, and how many bytes the value takes. If there is no room for the text, or at an error, the room stays as it is.
fn text_within<T: Canonical>(
    input: &[u8],
    room: &mut [u8],
    limits: &Limits,
    alloc: Global,
) -> Result<(usize, usize), Refusal>
    ensures text { IfOk result (λ r. (text : List ℕ) × IsRewrittenWithin limits.now T.reading T.writing.canons input.now text r.1
        × IsPlaced text room.old room.new r.0) }
    ensures refused { IfErr result (λ r. (r.error ≡ Memory) ⊎ HasNoTextAt limits.now T.reading T.writing.canons input.now r) }
    ensures within { IfErr result (λ r. r.at ≤ length input.now) }
    ensures kept { OnErr result (room.new ≡ room.old) }
{
    let (value, taken) = from_slice_located::<T>(input, limits, alloc)?;
    match write_into(&value, room, alloc) {
        Ok(len) => Ok((len, taken)),
        Err(error) => Err(Refusal { error, at: 0 }),
    }
}

/// Writes the canonical text of the value at the start of the input, of the named type and within the limits, to the start of the room.
/// Returns the text's length, and how many bytes the value takes. If there is no room for the text, or the value isn't read or written, the
/// room stays as it is. A refusal in reading has the place of the fault, one in writing has none. If an allocation fails, its error is
/// `Memory`.
pub fn text_of_value(
    named: TypeName,
    input: &[u8],
    room: &mut [u8],
    limits: &Limits,
    alloc: Global,
) -> Result<(usize, usize), Refusal>
    ensures text { IfOk result (λ r. (text : List ℕ) × IsText limits.now named input.now text r.1 × IsPlaced text room.old room.new r.0) }
    ensures refused { IfErr result (λ r. (r.error ≡ Memory) ⊎ HasNoText named limits.now input.now r) }
    ensures within { IfErr result (λ r. r.at ≤ length input.now) }
    ensures kept { OnErr result (room.new ≡ room.old) }
{
    types!(named, text_within(input, room, limits, alloc))
}
