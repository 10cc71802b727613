//! What a call returns.
ghost use Rattle.std.specs.Prelude.{◌≡◌, ◌≤◌, ◌<◌, ℕ, List, length};
ghost use Rattle.amqp_c.specs.Outcomes.{refused_at, outcome_of, detail_of, place_in, IsOfBytes, PlacesFault, failure_outcome, IsPlacedIn};

use amqp_wire::{Error, Refusal};

/// The number of the error that the text is longer than the room for it.
pub const NO_ROOM: u32 = 1000;

/// The number of the error that no type has the given number.
pub const NO_TYPE: u32 = 1001;

/// The number of the error that the limits let values nest more than 128 deep.
pub const NO_LIMITS: u32 = 1002;

/// What a call returns: the number of its error, or 0 if there is none, the error's detail, and its place.
#[repr(C)]
#[derive(Clone, Copy, Debug, PartialEq, Eq)]
pub struct Outcome {
    /// 0 if there is no error; from 1 to 31 the number of an `Error`; or one of those from 1000 on.
    pub number: u32,
    /// The format code of `UnknownCode`, `FloatCode` and `WrongType`; the reason of `Custom`, which no call returns; otherwise 0.
    pub detail: u32,
    /// How many bytes of the input are before what is at fault; 0 if the error reports no fault of the bytes, or the call tells no place.
    pub at: u64,
}

/// The outcome of a call without an error.
pub(crate) const DONE: Outcome = Outcome {
    number: 0,
    detail: 0,
    at: 0,
};

/// The outcome of a call whose text is longer than the room for it.
pub(crate) const FULL: Outcome = Outcome {
    number: NO_ROOM,
    detail: 0,
    at: 0,
};

/// Why a call over a type fails.
#[derive(Clone, Copy)]
pub(crate) enum Failure {
    /// No type has the given number.
    NoType,
    /// The limits let values nest more than 128 deep.
    NoLimits,
    /// The input begins with no value of the type within the limits, the value has no canonical text, or an allocation failed.
    Failed(Refusal),
}

impl Failure {
    /// Returns the failure as it is passed.
    pub(crate) fn outcome(self) -> Outcome
        ensures outcome { result ≡ failure_outcome self }
        ensures within { (input : List ℕ) → IsPlacedIn input self → result.at ≤ length input }
        ensures fault { PlacesFault result }
    {
        match self {
            Failure::NoType => Outcome {
                number: NO_TYPE,
                detail: 0,
                at: 0,
            },
            Failure::NoLimits => Outcome {
                number: NO_LIMITS,
                detail: 0,
                at: 0,
            },
            Failure::Failed(refusal) => Outcome::of_refusal(refusal),
        }
    }
}

impl Outcome {
    /// Returns an error without its place as it is passed.
    pub(crate) fn of_error(error: Error) -> Outcome
        ensures { result ≡ refused_at error 0 }
    {
        Outcome {
            number: u32::from(error.number()),
            detail: detail(error),
            at: 0,
        }
    }

    /// Returns an error and its place as they are passed.
    pub(crate) fn of_refusal(refusal: Refusal) -> Outcome
        ensures outcome { result ≡ outcome_of refusal }
        ensures within { result.at ≤ refusal.at }
        ensures fault { PlacesFault result }
    {
        Outcome {
            at: place(refusal),
            ..Outcome::of_error(refusal.error)
        }
    }
}

// The error's detail.
fn detail(error: Error) -> u32
    ensures { result ≡ detail_of error }
{
    match error {
        Error::UnknownCode(code) | Error::FloatCode(code) | Error::WrongType(code) => u32::from(
            code,
        ),
        Error::Custom(reason) => reason,
        _ => 0,
    }
}

// The place of a fault of the bytes. The other errors have none.
fn place(refusal: Refusal) -> u64
    ensures place { result ≡ place_in refusal.error refusal.at }
    ensures within { result ≤ refusal.at }
    ensures fault { 0 < result → IsOfBytes refusal.error }
{
    match refusal.error {
        Error::Memory | Error::Read(_) | Error::MixedArray | Error::TooLarge => 0,
        _ => refusal.at as u64,
    }
}
