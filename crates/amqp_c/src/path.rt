//! The path to a place in an encoded value (Part 1, sections 1.2 and 1.6), with the types whose fields are on it (section 1.4).
ghost use Rattle.std.specs.Prelude.{◌≡◌, ◌≤◌, ◌+◌, ℕ, MatchOption, slice_set};
ghost use Rattle.amqp_model.specs.Term.{code};
ghost use Rattle.amqp_model.specs.Spelling.{Names};
ghost use Rattle.amqp_lengths.specs.Fronts.{IsFront, NoFront};
ghost use Rattle.amqp_c.specs.Paths.{container_number, told_within, told_piece, told_node, IsMarkOf, IsTypeAt, IsTypeAround, IsTypeHere, TellsPath};

use amqp_descriptors::type_of_code;
use amqp_paths::{ContainerKind, Node, Piece, path_of};
use amqp_wire::format_code;

/// A node of a path: what begins there, and where.
#[repr(C)]
#[derive(Clone, Copy, Debug, PartialEq, Eq)]
pub struct PathNode {
    /// How many bytes of the input are before it.
    pub at: usize,
    /// What begins there: 1 for a value by itself, 2 for a descriptor, 3 for an item of a list or a map, 4 for the content of an array, 5 for
    /// the rest of the constructor that the items of an array share, 6 for an item of an array, 7 for the end of a container.
    pub piece: u32,
    /// The container that it is in, or the end of: 1 for a list, 2 for a map, 3 for an array; 0 for a value by itself or a descriptor.
    pub container: u32,
    /// How many items the container announces; 0 for the rest of a constructor.
    pub count: usize,
    /// The number of the item, from 0.
    pub index: usize,
    /// How many descriptors of the shared constructor are before the rest of it, or how many of them describe what begins here.
    pub descriptors: usize,
    /// Of a value behind a descriptor, the number of the type that has the descriptor's code. If this value is a list, each of its items has
    /// this number, whose field it is, and so has its end. Otherwise it is 0.
    pub type_number: u32,
    /// The format code that the items of an array share.
    pub code: u8,
}

// The numbers of what begins at a node.
const VALUE: u32 = 1;

const DESCRIPTOR: u32 = 2;

const ITEM: u32 = 3;

const ARRAY_CONTENT: u32 = 4;

const ELEMENT_CONSTRUCTOR: u32 = 5;

const ELEMENT: u32 = 6;

const END: u32 = 7;

// A value by itself, at the start of the input.
const WHOLE: PathNode = PathNode {
    at: 0,
    piece: VALUE,
    container: 0,
    count: 0,
    index: 0,
    descriptors: 0,
    type_number: 0,
    code: 0,
};

impl PathNode {
    // The node as it is passed, with the number of a type.
    fn new(node: Node, type_number: u32) -> PathNode
        ensures { result ≡ told_node node type_number }
    {
        PathNode {
            at: node.at,
            type_number,
            ..PathNode::of_piece(node.piece)
        }
    }

    // What begins at a node, without its place and its type.
    fn of_piece(piece: Piece) -> PathNode
        ensures { result ≡ told_piece piece }
    {
        match piece {
            Piece::Value => WHOLE,
            Piece::Descriptor => PathNode {
                piece: DESCRIPTOR,
                ..WHOLE
            },
            Piece::Item {
                container,
                count,
                index,
            } => PathNode::within(container, ITEM, count, index),
            Piece::ArrayContent { count } => {
                PathNode::within(ContainerKind::Array, ARRAY_CONTENT, count, 0)
            }
            Piece::ElementConstructor { descriptors } => PathNode {
                descriptors,
                ..PathNode::within(ContainerKind::Array, ELEMENT_CONSTRUCTOR, 0, 0)
            },
            Piece::Element {
                descriptors,
                code,
                count,
                index,
            } => PathNode {
                descriptors,
                code,
                ..PathNode::within(ContainerKind::Array, ELEMENT, count, index)
            },
            Piece::End { container, count } => PathNode::within(container, END, count, 0),
        }
    }

    // What begins in a container, or its end.
    fn within(kind: ContainerKind, piece: u32, count: usize, index: usize) -> PathNode
        ensures { result ≡ told_within kind piece count index }
    {
        PathNode {
            piece,
            container: container_number(kind),
            count,
            index,
            ..WHOLE
        }
    }
}

// The number of a kind of container.
fn container_number(kind: ContainerKind) -> u32
    ensures { result ≡ container_number kind }
{
    match kind {
        ContainerKind::List => 1,
        ContainerKind::Map => 2,
        ContainerKind::Array => 3,
    }
}

// The ulong at the start of the input, if there is one (Part 1, section 1.6.6).
fn ulong(input: &[u8]) -> Option<u64>
    ensures { MatchOption result ((c : ℕ) → NoFront (Names (code c)) input.now) (λ c. (len : ℕ) × IsFront (Names (code c)) input.now len) }
{
    let (code, data) = input.split_first()?;
    match *code {
        format_code::ULONG_0 => Some(0),
        format_code::SMALL_ULONG => {
            let (number, _) = data.split_first()?;
            Some(u64::from(*number))
        }
        format_code::ULONG => match data {
            [a, b, c, d, e, f, g, h, ..] => {
                Some(u64::from_be_bytes([*a, *b, *c, *d, *e, *f, *g, *h]))
            }
            _ => None,
        },
        _ => None,
    }
}

// The code of the descriptor of the described value at the start of the input, if it has one: a ulong behind a 0.
fn descriptor_code(input: &[u8]) -> Option<u64>
    ensures { MatchOption result ((c : ℕ) → NoFront (IsMarkOf c) input.now) (λ c. (len : ℕ) × IsFront (IsMarkOf c) input.now len) }
{
    let (mark, descriptor) = input.split_first()?;
    if *mark != format_code::DESCRIBED {
        return None;
    }
    ulong(descriptor)
}

// The number of the type of the described value at the place, by the code of its descriptor; or 0.
fn type_at(input: &[u8], at: usize) -> u32
    ensures { IsTypeAt input.now at result }
{
    let Some(described) = input.get(at..) else {
        return 0;
    };
    let Some(code) = descriptor_code(described) else {
        return 0;
    };
    match type_of_code(code) {
        Some(named) => named.number(),
        None => 0,
    }
}

// The same of the outer node, if the piece around is the value that its descriptor describes.
fn type_around(input: &[u8], outer: Option<Node>, around: Piece) -> u32
    ensures { IsTypeAround input.now outer around result }
{
    match (outer, around) {
        (Some(outer), Piece::Value) => type_at(input, outer.at),
        _ => 0,
    }
}

// The number of the type that the piece is of, by the last two nodes of the path before it: as a described value, or as a field; or 0.
fn type_here(input: &[u8], outer: Option<Node>, around: Option<Node>, piece: Piece) -> u32
    ensures { IsTypeHere input.now outer around piece result }
{
    let Some(around) = around else {
        return 0;
    };
    match piece {
        Piece::Value => type_at(input, around.at),
        Piece::Item {
            container: ContainerKind::List,
            ..
        }
        | Piece::End {
            container: ContainerKind::List,
            ..
        } => type_around(input, outer, around.piece),
        _ => 0,
    }
}

// Writes a node to the room, if there is room for it.
fn put_node(node: PathNode, index: usize, room: &mut [PathNode])
    ensures { room.new ≡ slice_set room.old index node }
{
    if index < room.len() {
        room[index] = node;
    }
}

/// Writes the nodes of the path to the place, from the outside in, to the room, as far as it reaches. Returns how many nodes there are.
pub(crate) fn tell_path(input: &[u8], at: usize, room: &mut [PathNode]) -> usize
    ensures told { TellsPath input.now at room.old room.new result }
    ensures some { 1 ≤ result }
    ensures most { result ≤ at + 1 }
{
    let mut count = 0;
    let mut outer = None;
    let mut around = None;
    for node in path_of(input, at) {
        let type_number = type_here(input, outer, around, node.piece);
        put_node(PathNode::new(node, type_number), count, room);
        outer = around;
        around = Some(node);
        count += 1;
    }
    count
}
