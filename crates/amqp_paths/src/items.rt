//! The items of lists and maps before a place (Part 1, section 1.2.3).
ghost use Rattle.std.specs.Prelude.{◌≡◌, ◌≤◌, ◌-◌, length, drop, MatchOption, IsTrue};
ghost use Rattle.amqp_lengths.specs.Fronts.{IsFront};
ghost use Rattle.amqp_lengths.specs.Lengths.{IsTerm, Row};
ghost use Rattle.amqp_paths.specs.Steps.{NoneWithin, IsItem, Reaches};

use crate::announced::announced_value;
use crate::steps::Further;
use crate::{ContainerKind, Piece};
use amqp_lengths::term_len;

// The length of the whole value at the start of the input, if it ends within `room` bytes.
fn value_within(input: &[u8], room: usize) -> Option<usize>
    ensures { MatchOption result (NoneWithin (IsTerm 128) input.now room) (λ n. IsFront (IsTerm 128) input.now n × (n ≤ room)) }
{
    let announced = announced_value(input)?;
    if announced > room {
        return None;
    }
    term_len(input.get(..announced)?).ok()
}

/// Returns the item of a list or map that begins within `room` bytes of its content, behind the whole items before it: the first one that
/// doesn't end there. If all items end there, it returns the end of the container.
pub(crate) fn item_within(
    container: ContainerKind,
    count: usize,
    content: &[u8],
    room: usize,
) -> Further
    ensures item { IsItem container count content.now result.piece result.start }
    ensures ends { result.end ≡ length content.now }
    ensures near { result.start ≤ room }
    ensures reaches { Reaches result.piece (drop result.start content.now) (room - result.start) }
{
    let mut start = 0;
    for index in 0..count {
        match value_within(&content[start..], room - start) {
            Some(len) => start += len,
            None => {
                let piece = Piece::Item {
                    container,
                    count,
                    index,
                };
                return Further {
                    piece,
                    start,
                    end: content.len(),
                };
            }
        }
    }
    Further {
        piece: Piece::End { container, count },
        start,
        end: content.len(),
    }
}

/// Returns whether the content of a list or map is so many values.
pub(crate) fn are_values(container: ContainerKind, count: usize, content: &[u8]) -> bool
    ensures { IsTrue result → Row (IsTerm 128) count content.now }
{
    let last = item_within(container, count, content, content.len());
    match last.piece {
        Piece::End { .. } => last.start == content.len(),
        _ => false,
    }
}
