//! The begins of values that aren't whole or aren't well formed, so that what comes before a fault can be told, too.
ghost use Rattle.std.specs.Prelude.{◌≡◌, ◌≤◌, ◌<◌, ◌+◌, length, IfSome};
ghost use Rattle.amqp_outlines.specs.Outlines.{IsFound};

use amqp_descriptors::unsigned;
use amqp_kinds::{Kind, kind_of};
use amqp_nodes::Node;

/// Returns a node of the described value, list, map or array that begins at the place in the enclosing node. It ends where its size says, or
/// where the enclosing one does. `None` is returned for a primitive, and if there is no size, no count or no constructor of items.
pub(crate) fn broken_node(input: &[u8], at: usize, around: &Node) -> Option<Node>
    ensures { IfSome result (IsFound input.now at around.now) }
{
    let reach = if around.kind == 0 {
        input.len()
    } else {
        around.end.min(input.len())
    };
    let bytes = input.get(..reach)?;
    let depth = around.depth.saturating_add(1);
    if around.kind == Kind::Array as u32 + 1 {
        return container(bytes, around.item_code, at, depth);
    }
    let data = at.saturating_add(1);
    match *bytes.get(at)? {
        0 => Some(described(bytes, data, depth)),
        code => container(bytes, code, data, depth),
    }
}

// A described value whose descriptor begins at the place.
fn described(bytes: &[u8], at: usize, depth: u32) -> Node
    ensures some { 0 < result.kind }
    ensures next { result.next ≡ at }
    ensures ends { result.end ≡ length bytes.now }
{
    Node {
        kind: Kind::Described as u32 + 1,
        depth,
        count: 2,
        start: at,
        end: bytes.len(),
        next: at,
        ..Node::NOTHING
    }
}

// How many bytes the size of a container with this code has, and its count (Part 1, sections 1.2.3 and 1.2.4).
fn width_of(code: u8) -> Option<usize> {
    match code {
        0xc0 | 0xc1 | 0xe0 => Some(1),
        0xd0 | 0xd1 | 0xf0 => Some(4),
        _ => None,
    }
}

// The number of so many bytes at the place.
fn number_at(bytes: &[u8], at: usize, width: usize) -> Option<usize>
    ensures { IfSome result (λ _. at + width ≤ length bytes.now) }
{
    let field = bytes.get(at..at.saturating_add(width))?;
    Some(unsigned(field) as usize)
}

// A list, a map or an array with this code, whose data begins at the place.
fn container(bytes: &[u8], code: u8, at: usize, depth: u32) -> Option<Node>
    ensures { IfSome result (λ node. (0 < node.kind) × (at ≤ node.next) × (node.next ≤ node.end) × (node.end ≤ length bytes.now)) }
{
    let width = width_of(code)?;
    let size = number_at(bytes, at, width)?;
    let behind_size = at.saturating_add(width);
    let count = number_at(bytes, behind_size, width)?;
    let start = behind_size.saturating_add(width);
    let kind = kind_of(code);
    let (item_code, next) = match kind {
        Kind::Array if count > 0 => (item_code_at(bytes, start)?, start.saturating_add(1)),
        _ => (0, start),
    };
    Some(Node {
        kind: kind as u32 + 1,
        depth,
        code,
        item_code,
        count,
        start,
        end: behind_size.saturating_add(size).min(bytes.len()).max(next),
        next,
    })
}

// The code of an array's items, if it is at the place and the items have bytes.
fn item_code_at(bytes: &[u8], at: usize) -> Option<u8>
    ensures { IfSome result (λ _. at < length bytes.now) }
{
    match *bytes.get(at)? {
        0 | 0x40..=0x45 => None,
        code => Some(code),
    }
}
