//! Bytes of known widths, and sizes with what they announce (Part 1, sections 1.2.1 and 1.2.2).
ghost use Rattle.std.specs.Prelude.{◌≤◌, ◌<◌, ◌+◌, ◌^◌, ◌≡◌, length, take, drop, IfOk, IfErr};
ghost use Rattle.amqp_wire.specs.declared.error.Error.TheVariants.{Cut};
ghost use Rattle.amqp_lengths.specs.Fronts.{IsFront, Refuses};
ghost use Rattle.amqp_lengths.specs.Pieces.{width_of, IsNumber, IsSized, HasSize};
ghost use Rattle.amqp_lengths.specs.Announced.{WantsSized};

use amqp_wire::Error;

/// Returns how many bytes a size or a count has: four, or one.
pub(crate) fn width_of(wide: bool) -> usize
    ensures { result ≡ width_of wide }
{
    if wide { 4 } else { 1 }
}

/// Returns the number at the start of the input, of one byte or of four.
pub(crate) fn number(input: &[u8], wide: bool) -> Result<usize, Error>
    ensures found { IfOk result (λ n. IsFront (IsNumber (width_of wide) n) input.now (width_of wide)) }
    ensures refused { IfErr result (λ e. (e ≡ Cut) × (length input.now < width_of wide)) }
{
    match (input, wide) {
        ([a, b, c, d, ..], true) => Ok(u32::from_be_bytes([*a, *b, *c, *d]) as usize),
        ([a, ..], false) => Ok(usize::from(*a)),
        _ => Err(Error::Cut),
    }
}

/// Returns the first `width` bytes.
pub(crate) fn fixed(input: &[u8], width: usize) -> Result<&[u8], Error>
    ensures found { IfOk result (λ bytes. (width ≤ length input.now) × (bytes.now ≡ take width input.now)) }
    ensures refused { IfErr result (λ e. (e ≡ Cut) × (length input.now < width)) }
{
    match input.get(..width) {
        Some(data) => Ok(data),
        None => Err(Error::Cut),
    }
}

/// Returns what a size of one byte or of four announces.
pub(crate) fn sized(input: &[u8], wide: bool) -> Result<&[u8], Error>
    ensures found { IfOk result (λ content. IsFront (IsSized (width_of wide) content.now) input.now (width_of wide + length content.now)) }
    ensures refused { IfErr result (λ e. Refuses (HasSize (width_of wide)) input.now e) }
    ensures fault { IfErr result (λ e. (e ≡ Cut) × WantsSized (width_of wide) (λ size. size) input.now) }
{
    let width = width_of(wide);
    let len = number(input, wide)?;
    match input.get(width..width + len) {
        Some(content) => Ok(content),
        None => Err(Error::Cut),
    }
}
