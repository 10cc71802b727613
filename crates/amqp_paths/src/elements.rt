//! The items of arrays before a place (Part 1, section 1.2.4).
ghost use Rattle.std.specs.Prelude.{◌≡◌, ◌≤◌, ◌+◌, ◌-◌, ◌^◌, ◌<◌, ◌⊎◌, ℕ, List, ◌∷◌, Option, length, drop, IsTrue, IfSome, MatchOption};
ghost use Rattle.amqp_model.specs.Constructors.{variable, format};
ghost use Rattle.amqp_model.specs.Term.{Primitive, array};
ghost use Rattle.amqp_model.specs.Spelling.{IsKnown, HasWidthZero};
ghost use Rattle.amqp_lengths.specs.Fronts.{IsFront, NoFront};
ghost use Rattle.amqp_lengths.specs.Pieces.{IsPrimitive, HasWidth, IsValue};
ghost use Rattle.amqp_lengths.specs.Stands.{an_array, AnyData};
ghost use Rattle.amqp_lengths.specs.Lengths.{HasPairs};
ghost use Rattle.amqp_paths.specs.Pieces.{container_of, rank};
ghost use Rattle.amqp_paths.specs.Steps.{NoneWithin, IsRow, IsElement, Reaches, StepsTo};

use crate::announced::{announced_len, fixed_width};
use crate::contents::content_in;
use crate::descriptors::marks_within;
use crate::heads::{Head, head_of, number};
use crate::items::are_values;
use crate::steps::Further;
use crate::{ContainerKind, Piece};
use amqp_wire::format_code;
use std::str;

// Whether the bytes are a value under the code of a primitive.
fn is_value(code: u8, bytes: &[u8]) -> bool
    requires primitive { IsPrimitive (format code) }
    requires width { HasWidth (format code) bytes.now }
    ensures found { IsTrue result → IsValue (format code) bytes.now }
    ensures all { IsValue (format code) bytes.now → IsTrue result }
{
    match code {
        format_code::BOOLEAN => match bytes {
            [byte] if *byte <= 1 => true,
            _ => false,
        },
        format_code::CHAR => match bytes {
            [a, b, c, d] => char::from_u32(u32::from_be_bytes([*a, *b, *c, *d])).is_some(),
            _ => false,
        },
        format_code::STRING_8 | format_code::STRING_32 => match str::from_utf8(bytes) {
            Ok(_) => true,
            Err(_) => false,
        },
        format_code::SYMBOL_8 | format_code::SYMBOL_32 => bytes.is_ascii(),
        _ => true,
    }
}

// The length of data of a fixed width under its code at the start of the input, if it is there.
fn fixed_len(code: u8, input: &[u8]) -> Option<usize>
    requires primitive { IsPrimitive (format code) }
    requires fixed { code < 0xa0 }
    ensures { MatchOption result (NoFront (AnyData code) input.now) (λ n. IsFront (AnyData code) input.now n) }
{
    let width = fixed_width(code);
    if is_value(code, input.get(..width)?) {
        Some(width)
    } else {
        None
    }
}

// The length of data behind a size of so many bytes under its code at the start of the input, if it is there.
fn sized_len(code: u8, width: usize, input: &[u8]) -> Option<usize>
    requires width { (width ≡ 1) ⊎ (width ≡ 4) }
    requires sized { (value : List ℕ → Option Primitive) × (format code ≡ variable width value) }
    ensures { MatchOption result (NoFront (AnyData code) input.now) (λ n. IsFront (AnyData code) input.now n) }
{
    let len = number(width, input)?;
    if is_value(code, input[width..].get(..len)?) {
        Some(width + len)
    } else {
        None
    }
}

// The length of the data of a primitive under its code at the start of the input, if it is there.
fn primitive_len(code: u8, input: &[u8]) -> Option<usize>
    requires { IsPrimitive (format code) }
    ensures { MatchOption result (NoFront (AnyData code) input.now) (λ n. IsFront (AnyData code) input.now n) }
{
    if code < format_code::BINARY_8 {
        return fixed_len(code, input);
    }
    if code < format_code::BINARY_32 {
        return sized_len(code, 1, input);
    }
    sized_len(code, 4, input)
}

// Whether a list or map may have so many items. A map has a value for each key.
fn has_pairs(kind: ContainerKind, count: usize) -> bool
    ensures { IsTrue result → HasPairs (container_of kind) count × (container_of kind ≡ array → ⊥) }
{
    match kind {
        ContainerKind::List => true,
        ContainerKind::Map => count % 2 == 0,
        ContainerKind::Array => false,
    }
}

// Whether the bytes are the data of a list or map, which holds as many values as it counts.
fn is_row(head: Head, data: &[u8]) -> bool
    requires { (head.width ≡ 0) ⊎ ((head.width ≡ 1) ⊎ (head.width ≡ 4)) }
    ensures { IsTrue result → IsRow (container_of head.kind) head.width data.now }
{
    let Some(content) = content_in(data, head) else {
        return false;
    };
    if !content.whole || content.end < data.len() || !has_pairs(head.kind, content.count) {
        return false;
    }
    let items = &data[content.start..content.end];
    are_values(head.kind, content.count, items)
}

// The length of the whole data under the code at the start of the input, if it has bytes and ends within `room` of them. Items of an array that
// are arrays themselves are not passed over.
fn data_within(code: u8, input: &[u8], room: usize) -> Option<usize>
    requires { IsKnown (format code) }
    ensures { MatchOption result (IsPrimitive (format code) → (HasWidthZero (format code) → ⊥) → NoneWithin (AnyData code) input.now room)
        (λ n. IsFront (AnyData code) input.now n × (n ≤ room)) }
{
    if format_code::has_width_zero(code) {
        return None;
    }
    let announced = announced_len(code, input)?;
    if announced > room {
        return None;
    }
    let data = input.get(..announced)?;
    let Some(head) = head_of(code) else {
        return primitive_len(code, data);
    };
    if is_row(head, data) {
        Some(announced)
    } else {
        None
    }
}

/// The constructor that the items of an array share.
#[derive(Clone, Copy)]
pub(crate) struct Shared {
    pub(crate) descriptors: usize,
    pub(crate) code: u8,
}

// The element that begins within `room` bytes of the data of an array's items, behind the whole ones before it.
fn element_within(shared: Shared, count: usize, data: &[u8], room: usize) -> Further
    requires { IsKnown (format shared.code) }
    ensures element { IsElement shared.descriptors shared.code count data.now result.piece result.start }
    ensures ends { result.end ≡ length data.now }
    ensures near { result.start ≤ room }
    ensures reaches { Reaches result.piece (drop result.start data.now) (room - result.start) }
{
    let mut start = 0;
    for index in 0..count {
        match data_within(shared.code, &data[start..], room - start) {
            Some(len) => start += len,
            None => {
                let piece = Piece::Element {
                    descriptors: shared.descriptors,
                    code: shared.code,
                    count,
                    index,
                };
                return Further {
                    piece,
                    start,
                    end: data.len(),
                };
            }
        }
    }
    let piece = Piece::End {
        container: ContainerKind::Array,
        count,
    };
    Further {
        piece,
        start,
        end: data.len(),
    }
}

// The format code at the start of the input, if it is one, and it ends within `room` bytes.
fn code_within(input: &[u8], room: usize) -> Option<u8>
    ensures { MatchOption result ((c : ℕ) (after : List ℕ) → input.now ≡ c ∷ after → IsKnown (format c) → room ≡ 0)
        (λ c. (0 < room) × IsKnown (format c) × ((after : List ℕ) × (input.now ≡ c ∷ after))) }
{
    let (code, _) = input.split_first()?;
    if room == 0 || *code == format_code::DESCRIBED || format_code::unknown(*code).is_some() {
        return None;
    }
    Some(*code)
}

/// Returns what begins within `room` bytes of the content of an array: the constructor that its items share, or a further part of it, or an
/// item.
pub(crate) fn part_within(count: usize, content: &[u8], room: usize) -> Further
    ensures falls { (result.start ≡ 0 → rank result.piece ≤ 1) × (rank result.piece ≤ 129) }
    ensures step { StepsTo (λ P z. (P ≡ an_array count) × (z ≡ content.now)) content.now room result }
{
    let marks = marks_within(content, room);
    let descriptors = marks.descriptors;
    match code_within(&content[marks.len..], room - marks.len) {
        Some(code) => {
            let start = marks.len + 1;
            let shared = Shared { descriptors, code };
            element_within(shared, count, &content[start..], room - start).behind(start)
        }
        None => Further {
            piece: Piece::ElementConstructor { descriptors },
            start: marks.len,
            end: content.len(),
        },
    }
}
