//! Values that are read and written. Bytes are given by their digits.
ghost use Rattle.std.specs.Prelude.{◌≡◌, ◌⊎◌, ℕ, List, true, length, Ok, IfOk, OnOk, IsTrue, MatchOption, MatchResult};
ghost use Rattle.amqp_wire.specs.declared.error.Error.{Error};
ghost use Rattle.amqp_wire.specs.declared.error.Error.TheVariants.{Memory};
ghost use Rattle.amqp_encoder.specs.Passes.{row_text};
ghost use Rattle.amqp_codec.specs.Reading.{BeginsWith, IsUnreadable};
ghost use Rattle.amqp_codec.specs.Written.{AreUnwritable, AreWritable};
ghost use Rattle.hex.specs.Hex.{encode_lower, decode_of};

use amqp_codec::{Deserialize, Error, Serialize};
use amqp_read_write::{from_slice_counted, to_vec};
use std::alloc::Global;
use std::test::Fail;

/// Checks that the value is written as the bytes with these digits.
pub fn check_written<T: Serialize>(value: &T, digits: &str, alloc: Global) -> Result<(), Fail>
    ensures { OnOk result (encode_lower (row_text (T.writing.canons value.now)) ≡ digits.now) }
{
    let text = hex::encode(alloc, &to_vec(value, alloc)?)?;
    if text.as_str() != digits {
        return Err(Fail::new(format_args!("{digits} is written as {text}")));
    }
    Ok(())
}

/// Checks that the bytes with these digits begin with a value of the type, that so many bytes follow it, and that it is written with the
/// other digits.
pub fn read_and_written<T: Deserialize + Serialize>(
    digits: &str,
    written: &str,
    left: usize,
    alloc: Global,
) -> Result<(), Fail> {
    let input = hex::decode(alloc, digits)?;
    let (value, len): (T, usize) = from_slice_counted(input.as_slice(), alloc)?;
    if len.checked_add(left) != Some(input.len()) {
        return Err(Fail::new(format_args!("{len} bytes of {digits} are read")));
    }
    check_written(&value, written, alloc)
}

/// Checks that the value that was made is written as the bytes with these digits.
pub fn check_made<T: Serialize + Drop>(
    made: Result<T, Error>,
    digits: &str,
    alloc: Global,
) -> Result<(), Fail>
    ensures { OnOk result (MatchResult made (λ value. encode_lower (row_text (T.writing.canons value)) ≡ digits.now) (λ _. ⊥)) }
{
    let value = made?;
    check_written(&value, digits, alloc)
}

/// Reads the value that the bytes with these digits are, all of them.
pub fn read<T: Deserialize>(digits: &str, alloc: Global) -> Result<T, Fail>
    ensures { IfOk result (λ value. (input : List ℕ) × (decode_of digits.now ≡ Ok input)
        × BeginsWith T.reading input value (length input)) }
{
    let input = hex::decode(alloc, digits)?;
    let (value, len): (T, usize) = from_slice_counted(input.as_slice(), alloc)?;
    if len != input.len() {
        return Err(Fail::new(format_args!("{len} bytes of {digits} are read")));
    }
    Ok(value)
}

/// Returns whether the bytes with these digits are the value that was made, all of them.
pub fn is_read<T: Deserialize + PartialEq>(
    digits: &str,
    wanted: Result<T, Error>,
    alloc: Global,
) -> Result<bool, Fail>
    ensures { IfOk result (λ well. MatchResult wanted (λ other. (value : T) × (input : List ℕ) × (decode_of digits.now ≡ Ok input)
        × BeginsWith T.reading input value (length input) × (well ≡ T.eq value other)) (λ _. ⊥)) }
{
    let wanted = wanted?;
    let value: T = read(digits, alloc)?;
    Ok(value == wanted)
}

/// Returns why the value isn't written, or `None` if it is.
pub fn refusal<T: Serialize + Drop>(value: T, alloc: Global) -> Option<Error>
    ensures { MatchOption result (AreWritable (T.writing.canons value))
        (λ e. (e ≡ Memory) ⊎ AreUnwritable (T.writing.canons value) e) }
{
    to_vec(&value, alloc).err()
}

/// Checks that the bytes with these digits are refused with this error.
pub fn check_refused<T: Deserialize>(digits: &str, wanted: Error, alloc: Global) -> Result<(), Fail>
    ensures { OnOk result ((input : List ℕ) × (e : Error) × (decode_of digits.now ≡ Ok input) × IsTrue (⟦<Error as PartialEq>⟧.eq e wanted)
        × (((T.reading.takes_memory ≡ true) × (e ≡ Memory)) ⊎ IsUnreadable T.reading input e)) }
{
    let input = hex::decode(alloc, digits)?;
    let answer: Result<(T, usize), Error> = from_slice_counted(input.as_slice(), alloc);
    match answer {
        Ok(_) => Err(Fail::new(format_args!("{digits} is read"))),
        Err(error) if error == wanted => Ok(()),
        Err(error) => Err(Fail::new(format_args!("{digits} is refused by {error:?}"))),
    }
}
