//! Descriptors, and those at the start of a constructor (Part 1, section 1.2).
ghost use Rattle.std.specs.Prelude.{◌≡◌, ◌≤◌, ◌<◌, ◌+◌, ◌-◌, ℕ, List, ◌∷◌, ◌++◌, length, drop, MatchOption, IfSome};
ghost use Rattle.amqp_lengths.specs.Fronts.{IsFront, NoFront};
ghost use Rattle.amqp_lengths.specs.Pieces.{NamesAny};
ghost use Rattle.amqp_lengths.specs.Lengths.{HasMarks};
ghost use Rattle.amqp_paths.specs.Steps.{IsMark, NoneWithin};

use amqp_lengths::term_len;
use amqp_wire::format_code;
use amqp_wire::nesting::NESTING;

/// Returns the length of the descriptor at the start of the input, a ulong or a symbol, if there is one.
pub(crate) fn descriptor_len(input: &[u8]) -> Option<usize>
    ensures { MatchOption result (NoFront NamesAny input.now) (λ n. IsFront NamesAny input.now n) }
{
    let (code, _) = input.split_first()?;
    match *code {
        format_code::ULONG_0
        | format_code::SMALL_ULONG
        | format_code::ULONG
        | format_code::SYMBOL_8
        | format_code::SYMBOL_32 => term_len(input).ok(),
        _ => None,
    }
}

// The length of a 0 and a descriptor at the start of the input, if they are there and end within `room` bytes.
fn mark_within(input: &[u8], room: usize) -> Option<usize>
    ensures { MatchOption result (NoneWithin IsMark input.now room) (λ n. IsFront IsMark input.now n × (n ≤ room)) }
{
    let (code, after) = input.split_first()?;
    if *code != format_code::DESCRIBED {
        return None;
    }
    let len = 1 + descriptor_len(after)?;
    if len <= room { Some(len) } else { None }
}

/// The descriptors at the start of a constructor: how many they are, and how many bytes they have, each with the 0 before it.
#[derive(Clone, Copy)]
pub(crate) struct Marks {
    pub(crate) descriptors: usize,
    pub(crate) len: usize,
}

/// Returns the descriptors at the start of a constructor that end within `room` bytes. A constructor has at most 128.
pub(crate) fn marks_within(input: &[u8], room: usize) -> Marks
    ensures few { result.descriptors ≤ 128 }
    ensures marks { IsFront (HasMarks result.descriptors) input.now result.len }
    ensures near { result.len ≤ room }
    ensures all { result.descriptors < 128 → NoneWithin IsMark (drop result.len input.now) (room - result.len) }
{
    let mut len = 0;
    for descriptors in 0..NESTING {
        match mark_within(&input[len..], room - len) {
            Some(mark) => len += mark,
            None => return Marks { descriptors, len },
        }
    }
    Marks {
        descriptors: NESTING,
        len,
    }
}
