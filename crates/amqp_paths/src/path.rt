//! The path to a place in an encoded value.
ghost use Rattle.std.specs.Prelude.{◌≡◌, ◌<◌, length, Some};
ghost use Rattle.amqp_paths.specs.declared.piece.Piece.TheVariants.{Value};
ghost use Rattle.amqp_paths.specs.Walks.{IsReached, GoesOn, HasReached, steps_left};

use crate::steps::step_within;
use crate::{Node, Piece};
use std::marker::Model;

// A node, and where what is around it ends.
#[derive(Clone, Copy)]
struct Reached {
    node: Node,
    end: usize,
}

// The node that is one step further in, if it begins at the place or before it.
fn further_in(input: &[u8], at: usize, from: Reached) -> Option<Reached>
    requires { IsReached input.now at from }
    ensures goes { GoesOn input.now at from result }
    ensures reached { HasReached input.now at result }
    ensures left { steps_left input.now result < steps_left input.now (Some from) }
{
    let bytes = &input[from.node.at..from.end];
    let further = step_within(from.node.piece, bytes, at - from.node.at)?;
    Some(Reached {
        node: Node {
            at: from.node.at + further.start,
            piece: further.piece,
        },
        end: from.node.at + further.end,
    })
}

/// The nodes around a place in an encoded value, from the outside in. Each is one step further in than the one before it, and none begins
/// behind the place. The last one is the node behind which no step leads to a node that begins at the place or before it.
#[derive(Drop)]
pub struct Path<'a> {
    input: &'a [u8],
    at: usize,
    // The node that comes next.
    next: Option<Reached>,
}

impl<'a> Model for Path<'a> {
    ghost use Rattle.amqp_paths.specs.Walks.{Walk, HasReached};

    ghost Value = { Walk };

    ghost view = { λ s. record { input = s.input.now; at = s.at; comes = s.next } };

    ghost invariant = { λ s. HasReached s.input.now s.at s.next };
}

/// Returns the path to the place `at` in the encoded value at the start of the input (Part 1, sections 1.2 and 1.6): the nodes around the
/// place, from the outside in. It begins with the value itself. The bytes at the place and behind it need not be well formed. The call
/// doesn't allocate, and neither does the iterator.
///
/// Where a value ends, another may begin. The path leads past the values that are whole and end at the place or before it, so it leads to
/// what begins there. If what is before the place isn't well formed, or nests more than 128 deep, the path leads into that, and may end
/// before the place. So it does if an item of an array is behind items that are arrays themselves: the path leads into the first of them.
pub fn path_of(input: &[u8], at: usize) -> Path<'_>
    ensures input { result.input ≡ input.now }
    ensures place { result.at ≡ at }
    ensures begins { result.comes ≡ Some (record { node = record { at = 0; piece = Value }; end = length input.now }) }
{
    let node = Node {
        at: 0,
        piece: Piece::Value,
    };
    Path {
        input,
        at,
        next: Some(Reached {
            node,
            end: input.len(),
        }),
    }
}

impl<'a> Iterator for Path<'a> {
    type Item = Node;

    ghost use Rattle.std.specs.Iterator.{at_most};
    ghost use Rattle.amqp_paths.specs.Walks.{Gives, steps_left};

    ghost next_gives = { λ s item t. Gives s item t };

    ghost remaining = { λ s. at_most (steps_left s.input s.comes) };

    fn next(&mut self) -> Option<Node> {
        let from = self.next?;
        self.next = further_in(self.input, self.at, from);
        Some(from.node)
    }
}
