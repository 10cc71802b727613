//! The content of containers, of which the end may be missing (Part 1, sections 1.2.3 and 1.2.4).
ghost use Rattle.std.specs.Prelude.{◌≡◌, ◌≤◌, ◌+◌, ◌⊎◌, ℕ, List, length, MatchOption, IfSome};
ghost use Rattle.amqp_lengths.specs.Stands.{Around, Contains};
ghost use Rattle.amqp_paths.specs.Pieces.{container_of};
ghost use Rattle.amqp_paths.specs.Steps.{HasContent};

use crate::ContainerKind;
use crate::heads::{Head, number};

/// What there is of a container's content.
#[derive(Clone, Copy)]
pub(crate) struct Content {
    /// How many items the container announces.
    pub(crate) count: usize,
    /// Where their bytes begin in the data.
    pub(crate) start: usize,
    /// Where they end, or where the data does, if this is before.
    pub(crate) end: usize,
    /// Whether they are all there.
    pub(crate) whole: bool,
}

/// Returns what there is of the content of the container whose data the input begins with, if there are its size and its count, and the size
/// holds the count. A list without items may have the size 0.
pub(crate) fn content_in(input: &[u8], head: Head) -> Option<Content>
    requires { (head.width ≡ 0) ⊎ ((head.width ≡ 1) ⊎ (head.width ≡ 4)) }
    ensures content { MatchOption result
        ((n behind : ℕ) (items : List ℕ) (around : Around) → Contains (container_of head.kind) head.width n items input.now around behind → ⊥)
        (λ c. HasContent (container_of head.kind) head.width input.now c) }
    ensures start { IfSome result (λ c. c.start ≡ head.width + head.width) }
{
    let width = head.width;
    let size = number(width, input)?;
    let count = number(width, &input[width..])?;
    let start = width + width;
    if size < width {
        return match head.kind {
            ContainerKind::List if size == 0 && count == 0 => Some(Content {
                count,
                start,
                end: start,
                whole: true,
            }),
            _ => None,
        };
    }
    let end = width + size;
    if end > input.len() {
        return Some(Content {
            count,
            start,
            end: input.len(),
            whole: false,
        });
    }
    Some(Content {
        count,
        start,
        end,
        whole: true,
    })
}
