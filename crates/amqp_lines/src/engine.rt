//! All lines of a reader, answered in order.
ghost use Rattle.std.specs.Prelude.{◌≡◌, ◌<◌, ◌⊎◌, ℕ, List, length, take, IfOk, IfErr, IfSome, OnOk, OnErr};
ghost use Rattle.std.specs.Io.KnownBytes.{Appends, Keeps};
ghost use Rattle.amqp_lines.specs.Answers.{AreAnswers, IsAnswer, IsOutside, IsOverfull};
ghost use Rattle.amqp_codec.specs.Reading.{greatest};
ghost use Rattle.amqp_wire.specs.declared.error.Error.TheVariants.{TooLarge};

use crate::answer::Answer;
use crate::lines::Lines;
use amqp_codec::Error;
use amqp_read_write::{Limits, ReadSource};
use std::alloc::Global;
use std::io::{ErrorKind, Read, Write};

/// Writes for each line of the reader one line to the writer, in order. Returns whether all answers are `ok`, as they are if there are no
/// lines.
///
/// A line is `<type> <hex>`: the name of a type, one space, and an even, positive number of hexadecimal digits of either case, or `-` for
/// no bytes. Lines end with a line feed, which the last may lack. The answer is one of these:
///
/// - `ok <hex> <left>`, with the canonical text of the type's value at the start of the bytes, in lower case, and the number of bytes after
///   that value;
/// - `no <number> <name>`, with the error for which the value isn't read or not written;
/// - `no 0 Line`, for a line of another form.
///
/// A line `limits <nesting> <bytes> <items>` sets the limits within which the lines after it are read (`Limits`), up to the next such line.
/// It has three decimal numbers of at most 19 digits without leading zeros, with one space between. The first is at most 128. The answer is
/// the line itself, and counts as `ok`. Before the first such line there are no limits but the greatest.
///
/// # Errors
///
/// - `Memory`, if a line or its answer can't be held.
/// - `Read`, if the reader or the writer fails.
/// - `TooLarge`, if there are more than 2^64 - 1 lines.
///
/// After an error, what was written is unspecified.
pub fn run<R: Read + Drop, W: Write>(
    reader: R,
    writer: &mut W,
    alloc: Global,
) -> Result<bool, Error>
    ensures answers { IfOk result (λ all_ok. IfSome (R.remaining reader) (λ input. (output : List ℕ) × AreAnswers greatest input output all_ok
        × Appends (W.contents writer.old) (W.contents writer.new) output)) }
    ensures refused { IfErr result (λ e. IsOutside e ⊎ ((e ≡ TooLarge) × IsOverfull (R.remaining reader))) }
{
    let mut lines = Lines::new(ReadSource::new(reader));
    let mut limits = Limits::greatest();
    let mut all_ok = true;
    for answered in 0..u64::MAX {
        let Some(line) = lines.next_line(alloc)? else {
            flush(writer)?;
            return Ok(all_ok);
        };
        all_ok &= answer_line(line.as_slice(), &mut limits, writer, alloc)?;
    }
    Err(Error::TooLarge)
}

// Answers one line within the limits, which it may change, and returns whether the answer is `ok`.
fn answer_line<W: Write>(
    line: &[u8],
    limits: &mut Limits,
    writer: &mut W,
    alloc: Global,
) -> Result<bool, Error>
    ensures answer { IfOk result (λ good. (text : List ℕ) × IsAnswer limits.old line.now text good limits.new
        × Appends (W.contents writer.old) (W.contents writer.new) text) }
    ensures err { IfErr result IsOutside }
{
    let answer = Answer::to_line(line, limits, alloc)?;
    let text = answer.printed(alloc)?;
    write_whole(writer, text.as_bytes())?;
    *limits = answer.limits_after(limits);
    Ok(answer.is_ok())
}

// Flushes the writer. What was written stays as it is.
fn flush<W: Write>(writer: &mut W) -> Result<(), Error>
    ensures kept { Keeps (W.contents writer.old) (W.contents writer.new) }
    ensures err { IfErr result IsOutside }
{
    match writer.flush() {
        Ok(()) => Ok(()),
        Err(error) => Err(Error::Read(error.kind())),
    }
}

// Writes all of the bytes. No failure is retried: after one, a proper prefix of the bytes was written.
fn write_whole<W: Write>(writer: &mut W, bytes: &[u8]) -> Result<(), Error>
    ensures written { OnOk result (Appends (W.contents writer.old) (W.contents writer.new) bytes.now) }
    ensures part { OnErr result ((n : ℕ) × (n < length bytes.now)
        × Appends (W.contents writer.old) (W.contents writer.new) (take n bytes.now)) }
    ensures err { IfErr result IsOutside }
{
    let mut done = 0;
    while done < bytes.len() {
        match writer.write(&bytes[done..]) {
            Ok(0) => return Err(Error::Read(ErrorKind::WriteZero)),
            Ok(n) => done += n,
            Err(error) => return Err(Error::Read(error.kind())),
        }
    }
    Ok(())
}
