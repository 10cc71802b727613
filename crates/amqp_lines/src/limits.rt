//! The limits that a line sets.
ghost use Rattle.std.specs.Prelude.{◌≡◌, ◌++◌, ◌∷◌, ℕ, MatchOption};
ghost use Rattle.amqp_wire.specs.declared.limits.Limits.{Limits};
ghost use Rattle.amqp_lines.specs.Lines.{HasNo};
ghost use Rattle.amqp_lines.specs.Answers.{IsNumber, SetsLimits};

use amqp_read_write::Limits;
use memchr::memchr;
use std::str;

/// The least number with more than 19 digits.
const TOO_LONG: u64 = 10_000_000_000_000_000_000;

/// Returns the limits that a line `limits <nesting> <bytes> <items>` sets, or `None` if it has another form.
pub(crate) fn limits_of(line: &[u8]) -> Option<Limits>
    ensures { MatchOption result ((limits : Limits) → SetsLimits line.now limits → ⊥) (λ limits. SetsLimits line.now limits) }
{
    let numbers = line.strip_prefix(b"limits ")?;
    let (nesting, others) = split_at_space(numbers)?;
    let (bytes, items) = split_at_space(others)?;
    match u32::try_from(number(nesting)?) {
        Ok(nesting) => Limits::new(nesting, number(bytes)?, number(items)?),
        Err(_) => None,
    }
}

// What comes before the first space, and what comes after it.
fn split_at_space(bytes: &[u8]) -> Option<(&[u8], &[u8])>
    ensures { MatchOption result (HasNo 32 bytes.now)
        (λ parts. HasNo 32 parts.0.now × (bytes.now ≡ parts.0.now ++ (32 ∷ parts.1.now))) }
{
    let space = memchr(b' ', bytes)?;
    Some((&bytes[..space], &bytes[space + 1..]))
}

// The number of at most 19 digits that is written so, without a leading zero.
fn number(digits: &[u8]) -> Option<u64>
    ensures { MatchOption result ((n : ℕ) → IsNumber digits.now n → ⊥) (λ n. IsNumber digits.now n) }
{
    match str::from_utf8(digits) {
        Ok(text) => number_of_text(text),
        Err(_) => None,
    }
}

// The same of a text.
fn number_of_text(text: &str) -> Option<u64>
    ensures { MatchOption result ((n : ℕ) → IsNumber text.now n → ⊥) (λ n. IsNumber text.now n) }
{
    let Ok(n) = text.parse::<u64>() else {
        return None;
    };
    if n >= TOO_LONG {
        return None;
    }
    if itoa::Buffer::new().format(n) == text {
        Some(n)
    } else {
        None
    }
}
