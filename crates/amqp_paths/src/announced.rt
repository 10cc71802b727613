//! How many bytes a format code and a size announce (Part 1, section 1.2).
ghost use Rattle.std.specs.Prelude.{◌≡◌, ◌≤◌, ◌<◌, ◌+◌, ◌^◌, ◌⊎◌, ℕ, List, ◌++◌, length, Some, IfSome};
ghost use Rattle.amqp_model.specs.Constructors.{format};
ghost use Rattle.amqp_lengths.specs.Pieces.{fixed_width};
ghost use Rattle.amqp_lengths.specs.Announced.{IsAnnounced};
ghost use Rattle.amqp_lengths.specs.Lengths.{IsTerm};

use crate::ContainerKind;
use crate::descriptors::marks_within;
use crate::heads::{head_of, number};
use amqp_wire::format_code;

/// Returns how many bytes the data of a code of a fixed width has: the high half of the code says it.
pub(crate) fn fixed_width(code: u8) -> usize
    ensures { result ≡ fixed_width code }
{
    match code / 16 {
        0x4 => 0,
        0x5 => 1,
        0x6 => 2,
        0x7 => 4,
        0x8 => 8,
        _ => 16,
    }
}

/// Returns how many bytes the data under a code has that the input begins with, as its format and its size announce. They may not all be
/// there.
pub(crate) fn announced_len(code: u8, input: &[u8]) -> Option<usize>
    ensures announced { (front after : List ℕ) → input.now ≡ front ++ after → IsAnnounced (format code) front → result ≡ Some (length front) }
    ensures most { IfSome result (λ n. n < 2 ^ 33) }
{
    if let Some(head) = head_of(code) {
        let size = number(head.width, input)?;
        return Some(match head.kind {
            ContainerKind::List if size == 0 => head.width + head.width,
            _ => head.width + size,
        });
    }
    if code < format_code::BINARY_8 {
        return Some(fixed_width(code));
    }
    let width = if code < format_code::BINARY_32 { 1 } else { 4 };
    Some(width + number(width, input)?)
}

/// Returns how many bytes the value has that the input begins with, as its constructor and its size announce.
pub(crate) fn announced_value(input: &[u8]) -> Option<usize>
    ensures { (front after : List ℕ) → input.now ≡ front ++ after → IsTerm 128 front → result ≡ Some (length front) }
{
    let marks = marks_within(input, input.len());
    let (code, data) = input[marks.len..].split_first()?;
    Some(marks.len + 1 + announced_len(*code, data)?)
}
