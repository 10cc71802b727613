//! The names of errors by their numbers.
ghost use Rattle.std.specs.Prelude.{◌≡◌, ℕ, MatchOption};
ghost use Rattle.amqp_wire.specs.Error.{number_of};
ghost use Rattle.amqp_wire.specs.declared.error.Error.{Error};
ghost use Rattle.amqp_c.specs.Errors.{IsNameOf, IsNameless};

use crate::outcome::{NO_LIMITS, NO_ROOM, NO_TYPE};
use amqp_wire::Error;
use std::io::ErrorKind;

// An error with this number. If errors with this number differ in what else they say, it is the one with 0, or with the kind `Other`.
fn error_numbered(number: u32) -> Option<Error>
    ensures { MatchOption result ((e : Error) → number_of e ≡ number → ⊥) (λ e. number_of e ≡ number) }
{
    Some(match number {
        1 => Error::Cut,
        2 => Error::UnknownCode(0),
        3 => Error::FloatCode(0),
        4 => Error::Size,
        5 => Error::OddCount,
        6 => Error::DuplicateKey,
        7 => Error::Surplus,
        8 => Error::Missing,
        9 => Error::WrongDescriptor,
        10 => Error::Depth,
        11 => Error::ZeroWidthItems,
        12 => Error::BadBool,
        13 => Error::BadChar,
        14 => Error::BadUtf8,
        15 => Error::NonAscii,
        16 => Error::UnknownText,
        17 => Error::UnknownNumber,
        18 => Error::EmptyMultiple,
        19 => Error::EmptyBody,
        20 => Error::NotSection,
        21 => Error::Memory,
        22 => Error::Read(ErrorKind::Other),
        23 => Error::MixedArray,
        24 => Error::TooLarge,
        25 => Error::InvalidValue,
        26 => Error::LazyInArray,
        27 => Error::WrongType(0),
        28 => Error::BadDescriptor,
        29 => Error::Custom(0),
        30 => Error::Misplaced,
        31 => Error::Limit,
        _ => return None,
    })
}

/// Returns the name of the error that has this number.
pub(crate) fn name_of_number(number: u32) -> Option<&'static str>
    ensures { MatchOption result (IsNameless number) (λ name. IsNameOf number name.now) }
{
    match number {
        NO_ROOM => Some("NoRoom"),
        NO_TYPE => Some("NoType"),
        NO_LIMITS => Some("NoLimits"),
        number => {
            let error = error_numbered(number)?;
            Some(error.name())
        }
    }
}
