//! The format codes of containers, and the numbers at the start of their data (Part 1, sections 1.2.3 and 1.2.4).
ghost use Rattle.std.specs.Prelude.{◌≡◌, ◌<◌, ◌≤◌, ◌⊎◌, ◌^◌, ℕ, length, MatchOption, IfSome};
ghost use Rattle.amqp_model.specs.Term.{Container};
ghost use Rattle.amqp_model.specs.Constructors.{compound, format};
ghost use Rattle.amqp_lengths.specs.Fronts.{IsFront};
ghost use Rattle.amqp_lengths.specs.Pieces.{IsNumber};
ghost use Rattle.amqp_paths.specs.declared.piece.ContainerKind.TheVariants.{Array};
ghost use Rattle.amqp_paths.specs.Pieces.{container_of};

use crate::ContainerKind;
use amqp_wire::format_code;

/// What the format code of a container says: its kind, and how many bytes its size and its count have each.
#[derive(Clone, Copy)]
pub(crate) struct Head {
    pub(crate) kind: ContainerKind,
    pub(crate) width: usize,
}

/// Returns what the code says, or `None` if it is not that of a list, a map or an array.
pub(crate) fn head_of(code: u8) -> Option<Head>
    ensures head { MatchOption result ((kind : Container) (w : ℕ) → format code ≡ compound kind w → ⊥)
        (λ h. format code ≡ compound (container_of h.kind) h.width) }
    ensures array { IfSome result (λ h. h.kind ≡ Array → 1 ≤ h.width) }
    ensures width { IfSome result (λ h. (h.width ≡ 0) ⊎ ((h.width ≡ 1) ⊎ (h.width ≡ 4))) }
{
    let (kind, width) = match code {
        format_code::LIST_0 => (ContainerKind::List, 0),
        format_code::LIST_8 => (ContainerKind::List, 1),
        format_code::LIST_32 => (ContainerKind::List, 4),
        format_code::MAP_8 => (ContainerKind::Map, 1),
        format_code::MAP_32 => (ContainerKind::Map, 4),
        format_code::ARRAY_8 => (ContainerKind::Array, 1),
        format_code::ARRAY_32 => (ContainerKind::Array, 4),
        _ => return None,
    };
    Some(Head { kind, width })
}

/// Returns the number of so many bytes at the start of the input, if they are there.
pub(crate) fn number(width: usize, input: &[u8]) -> Option<usize>
    requires { (width ≡ 0) ⊎ ((width ≡ 1) ⊎ (width ≡ 4)) }
    ensures number { MatchOption result (length input.now < width) (λ n. IsFront (IsNumber width n) input.now width) }
    ensures most { IfSome result (λ n. n < 2 ^ 32) }
{
    match (width, input) {
        (0, _) => Some(0),
        (1, [a, ..]) => Some(usize::from(*a)),
        (4, [a, b, c, d, ..]) => Some(u32::from_be_bytes([*a, *b, *c, *d]) as usize),
        _ => None,
    }
}
