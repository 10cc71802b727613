//! Reading and rewriting as the type with a number.
ghost use Rattle.std.specs.Prelude.{◌≡◌, List, ℕ, IfOk, IfErr, OnErr};
ghost use Rattle.amqp_read_write.specs.Room.{IsPlaced};
ghost use Rattle.amqp_c.specs.Outcomes.{IsPlacedIn};
ghost use Rattle.amqp_c.specs.Rewriting.{IsOf, Fails, IsLength, FailsToRead, IsRewriting, FailsToRewrite};

use crate::limits::GivenLimits;
use crate::outcome::Failure;
use amqp_catalogue::TypeName;
use amqp_named_values::{len_of_value, text_of_value};
use amqp_wire::Limits;
use std::alloc::Global;

// What is asked for: a type and limits.
#[derive(Clone, Copy)]
struct Request {
    named: TypeName,
    within: Limits,
}

impl Request {
    // The type of the number, and limits of these numbers.
    fn new(number: u32, limits: &GivenLimits) -> Result<Request, Failure>
        ensures asked { IfOk result (λ request. IsOf number limits.now request.named request.within) }
        ensures refused { IfErr result (λ f. Fails number limits.now (λ _ _ _. ⊥) f) }
        ensures within { (input : List ℕ) → IfErr result (λ f. IsPlacedIn input f) }
    {
        let Some(named) = TypeName::from_number(number) else {
            return Err(Failure::NoType);
        };
        let Some(within) = limits.limits() else {
            return Err(Failure::NoLimits);
        };
        Ok(Request { named, within })
    }
}

/// Returns how many bytes the value at the start of the input takes, of the numbered type and within the limits.
pub(crate) fn value_len(
    number: u32,
    input: &[u8],
    limits: &GivenLimits,
    alloc: Global,
) -> Result<usize, Failure>
    ensures found { IfOk result (λ n. IsLength number limits.now input.now n) }
    ensures refused { IfErr result (λ f. FailsToRead number limits.now input.now f) }
    ensures within { IfErr result (λ f. IsPlacedIn input.now f) }
{
    let request = Request::new(number, limits)?;
    match len_of_value(request.named, input, &request.within, alloc) {
        Ok(len) => Ok(len),
        Err(refusal) => Err(Failure::Failed(refusal)),
    }
}

/// Writes the canonical text of the value at the start of the input, of the numbered type and within the limits, to the start of the room.
/// It returns the text's length, and how many bytes the value takes. If there is no room for the text, or at a failure, the room stays as it
/// is.
pub(crate) fn canonical_into(
    number: u32,
    input: &[u8],
    room: &mut [u8],
    limits: &GivenLimits,
    alloc: Global,
) -> Result<(usize, usize), Failure>
    ensures text { IfOk result (λ r. (text : List ℕ) × IsRewriting number limits.now input.now text r.1
        × IsPlaced text room.old room.new r.0) }
    ensures refused { IfErr result (λ f. FailsToRewrite number limits.now input.now f) }
    ensures within { IfErr result (λ f. IsPlacedIn input.now f) }
    ensures kept { OnErr result (room.new ≡ room.old) }
{
    let request = Request::new(number, limits)?;
    match text_of_value(request.named, input, room, &request.within, alloc) {
        Ok(lens) => Ok(lens),
        Err(refusal) => Err(Failure::Failed(refusal)),
    }
}
