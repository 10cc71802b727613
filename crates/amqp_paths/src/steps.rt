//! From what begins at a place to what is next further in (Part 1, sections 1.2 and 1.6).
ghost use Rattle.std.specs.Prelude.{◌≡◌, ◌≤◌, ◌<◌, ◌+◌, ◌-◌, ◌^◌, ◌∷◌, length, drop, MatchOption, IfSome};
ghost use Rattle.amqp_lengths.specs.Stands.{a_descriptor, a_code, IsOwn, IsUnder};
ghost use Rattle.amqp_paths.specs.declared.piece.Piece.TheVariants.{ElementConstructor};
ghost use Rattle.amqp_paths.specs.Pieces.{IsPiece, rank};
ghost use Rattle.amqp_paths.specs.Steps.{IsPart, NoContentWithin, Reaches, StepsTo, StepsBeyond};

use crate::contents::content_in;
use crate::descriptors::descriptor_len;
use crate::elements::part_within;
use crate::heads::head_of;
use crate::items::item_within;
use crate::{ContainerKind, Piece};
use amqp_wire::format_code;
use amqp_wire::nesting::NESTING;

/// What is next further in: what begins there, where it begins, and where what is around it ends, in the bytes of what is around both.
#[derive(Clone, Copy)]
pub(crate) struct Further {
    pub(crate) piece: Piece,
    pub(crate) start: usize,
    pub(crate) end: usize,
}

impl Further {
    /// Returns the same, where so many bytes come first.
    pub(crate) fn behind(self, len: usize) -> Further
        requires order { self.start ≤ self.end }
        requires room { len + self.end < 2 ^ 64 }
        ensures piece { result.piece ≡ self.piece }
        ensures start { result.start ≡ len + self.start }
        ensures end { result.end ≡ len + self.end }
    {
        Further {
            piece: self.piece,
            start: len + self.start,
            end: len + self.end,
        }
    }
}

// In the content of a container: an item or the end of a list or map, or the content of an array.
fn in_content(kind: ContainerKind, count: usize, content: &[u8], room: usize) -> Further
    ensures part { IsPart kind count content.now result.piece result.start }
    ensures ends { result.end ≡ length content.now }
    ensures near { result.start ≤ room }
    ensures reaches { Reaches result.piece (drop result.start content.now) (room - result.start) }
{
    match kind {
        ContainerKind::Array => Further {
            piece: Piece::ArrayContent { count },
            start: 0,
            end: content.len(),
        },
        kind => item_within(kind, count, content, room),
    }
}

// In the data under a code.
fn in_data(code: u8, data: &[u8], room: usize) -> Option<Further>
    ensures step { MatchOption result (NoContentWithin code data.now room) (λ f. StepsTo (λ P z. IsUnder P z code data.now) data.now room f) }
    ensures falls { IfSome result (λ f. (f.start ≡ 0 → rank f.piece ≡ 0) × (rank f.piece ≤ 2)) }
{
    let head = head_of(code)?;
    let content = content_in(data, head)?;
    let room = room.checked_sub(content.start)?;
    let items = &data[content.start..content.end];
    Some(in_content(head.kind, content.count, items, room).behind(content.start))
}

// Behind the 0 of a described value: its descriptor, or what is behind it.
fn in_described(input: &[u8], room: usize) -> Further
    ensures low { rank result.piece ≡ 0 }
    ensures step { StepsTo (λ P z. IsOwn P × (z ≡ 0 ∷ input.now)) input.now room result }
{
    let (piece, start) = match descriptor_len(input) {
        Some(len) if len <= room => (Piece::Value, len),
        _ => (Piece::Descriptor, 0),
    };
    Further {
        piece,
        start,
        end: input.len(),
    }
}

// In a value with a constructor of its own.
fn in_value(input: &[u8], room: usize) -> Option<Further>
    ensures some { IfSome result (λ f. (1 ≤ f.start) × (rank f.piece ≤ 2)) }
    ensures step { MatchOption result (StepsBeyond (λ P z. IsOwn P × (z ≡ input.now)) room)
        (λ f. StepsTo (λ P z. IsOwn P × (z ≡ input.now)) input.now room f) }
{
    let (code, after) = input.split_first()?;
    let room = room.checked_sub(1)?;
    if *code == format_code::DESCRIBED {
        return Some(in_described(after, room).behind(1));
    }
    Some(in_data(*code, after, room)?.behind(1))
}

// In a descriptor: in what is no descriptor, but a container.
fn in_descriptor(input: &[u8], room: usize) -> Option<Further>
    ensures some { IfSome result (λ f. (1 ≤ f.start) × (rank f.piece ≤ 2)) }
    ensures step { MatchOption result (StepsBeyond (λ P z. (P ≡ a_descriptor) × (z ≡ input.now)) room)
        (λ f. StepsTo (λ P z. (P ≡ a_descriptor) × (z ≡ input.now)) input.now room f) }
{
    let (code, after) = input.split_first()?;
    let room = room.checked_sub(1)?;
    Some(in_data(*code, after, room)?.behind(1))
}

// In the rest of a shared constructor: its next descriptor.
fn in_constructor(descriptors: usize, input: &[u8], room: usize) -> Option<Further>
    requires { Reaches (ElementConstructor descriptors) input.now room }
    ensures some { IfSome result (λ f. (1 ≤ f.start) × (rank f.piece ≤ 2)) }
    ensures step { MatchOption result (StepsBeyond (λ P z. (P ≡ a_code descriptors) × (z ≡ input.now)) room)
        (λ f. StepsTo (λ P z. (P ≡ a_code descriptors) × (z ≡ input.now)) input.now room f) }
{
    let (code, after) = input.split_first()?;
    if *code != format_code::DESCRIBED || descriptors >= NESTING || room == 0 {
        return None;
    }
    Some(Further {
        piece: Piece::Descriptor,
        start: 1,
        end: input.len(),
    })
}

/// Returns what is next further in and begins within `room` bytes of those of a piece, if there is such a thing.
pub(crate) fn step_within(piece: Piece, input: &[u8], room: usize) -> Option<Further>
    requires reaches { Reaches piece input.now room }
    requires low { rank piece ≤ 129 }
    ensures falls { IfSome result (λ f. f.start ≡ 0 → rank f.piece < rank piece) }
    ensures low { IfSome result (λ f. rank f.piece ≤ 129) }
    ensures step { MatchOption result (StepsBeyond (λ P z. IsPiece piece P × (z ≡ input.now)) room)
        (λ f. StepsTo (λ P z. IsPiece piece P × (z ≡ input.now)) input.now room f) }
{
    match piece {
        Piece::Value | Piece::Item { .. } => in_value(input, room),
        Piece::Descriptor => in_descriptor(input, room),
        Piece::ArrayContent { count } => Some(part_within(count, input, room)),
        Piece::ElementConstructor { descriptors } => in_constructor(descriptors, input, room),
        Piece::Element {
            descriptors,
            code,
            count,
            index,
        } => match descriptors.checked_sub(1) {
            None => in_data(code, input, room),
            Some(descriptors) => Some(Further {
                piece: Piece::Element {
                    descriptors,
                    code,
                    count,
                    index,
                },
                start: 0,
                end: input.len(),
            }),
        },
        Piece::End { .. } => None,
    }
}
