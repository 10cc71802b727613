//! One node of a term: a value in it, for walking the term without a tree (Part 1, section 1.2).
ghost use Rattle.std.specs.Prelude.{◌≡◌, ◌≤◌, ◌<◌, ◌+◌, ◌^◌, ◌⊎◌, ℕ, List, [], ◌++◌, length, drop, MatchOption, IfOk, IfErr};
ghost use Rattle.amqp_model.specs.Constructors.{format};
ghost use Rattle.amqp_model.specs.Spelling.{IsKnown, Constructor, IsDataOf};
ghost use Rattle.amqp_model.specs.Term.{Term, Descriptor};
ghost use Rattle.amqp_lengths.specs.Announced.{IsAnnounced, Wants};
ghost use Rattle.amqp_lengths.specs.Fronts.{IsFront};
ghost use Rattle.amqp_lengths.specs.Pieces.{IsNumber, fixed_width};
ghost use Rattle.amqp_kinds.specs.declared.kind.Kind.TheVariants.{Array};
ghost use Rattle.amqp_kinds.specs.Kinds.{kind_at};
ghost use Rattle.amqp_nodes.specs.Items.{size_of, behind_size, RefusesItem};
ghost use Rattle.amqp_nodes.specs.Nodes.{kind_number, head_of, Announces, IsDataNode, BeginsWithTerm, BeginsWithItem, IsPart, IsNoPart};
ghost use Rattle.amqp_nodes.specs.Nodes.{reach_of, inner_depth, IsNode, IsNoNode};
ghost use Rattle.amqp_nodes.specs.Terms.{RefusesTerm};

use amqp_kinds::{Kind, kind_of};
use amqp_lengths::term_len;
use amqp_wire::{Error, format_code};

/// A value in a term. A described value is a node with two in it, its descriptor and its value.
#[repr(C)]
#[derive(Clone, Copy, Debug, PartialEq, Eq)]
pub struct Node {
    /// Its kind, as a number; 0 for what is around a whole term.
    pub kind: u32,
    /// How many nodes are around it.
    pub depth: u32,
    /// Its format code, or 0 for a described value.
    pub code: u8,
    /// The format code of the items of an array; 0 for an array without items, and for other nodes.
    pub item_code: u8,
    /// How many nodes are directly in it: items of a list or an array, keys and values of a map, 2 for a described value.
    pub count: usize,
    /// Where its content begins, after its constructor, its size and its count. The content of an array begins with the constructor of its
    /// items.
    pub start: usize,
    /// Where it ends.
    pub end: usize,
    /// Where the next node begins: the first one in it, or otherwise the one after it.
    pub next: usize,
}

// How many bytes the size has that the data of a code begins with.
fn size_width(code: u8) -> usize
    ensures size { result ≡ size_of (format code) }
    ensures some { IsKnown (format code) → 0xa0 ≤ code → 1 ≤ result }
    ensures most { result ≤ 4 }
{
    match code {
        format_code::BINARY_8 | format_code::STRING_8 | format_code::SYMBOL_8 => 1,
        format_code::LIST_8 | format_code::MAP_8 | format_code::ARRAY_8 => 1,
        format_code::BINARY_32 | format_code::STRING_32 | format_code::SYMBOL_32 => 4,
        format_code::LIST_32 | format_code::MAP_32 | format_code::ARRAY_32 => 4,
        _ => 0,
    }
}

// How many bytes come before the content of a code's data.
fn head_len(code: u8) -> usize
    ensures head { result ≡ head_of (format code) }
    ensures most { result ≤ 8 }
{
    match kind_of(code) {
        Kind::List | Kind::Map | Kind::Array => 2 * size_width(code),
        _ => size_width(code),
    }
}

// How many items the data of a code announces.
fn count_in(code: u8, bytes: &[u8]) -> usize
    ensures { Announces (format code) bytes.now result }
{
    match (code, bytes) {
        (format_code::LIST_8 | format_code::MAP_8 | format_code::ARRAY_8, [_, count, ..]) => {
            usize::from(*count)
        }
        (
            format_code::LIST_32 | format_code::MAP_32 | format_code::ARRAY_32,
            [_, _, _, _, a, b, c, d, ..],
        ) => u32::from_be_bytes([*a, *b, *c, *d]) as usize,
        _ => 0,
    }
}

// The width of a value whose code is of a fixed one: the high half of the code says it.
fn fixed_width(code: u8) -> usize
    ensures { result ≡ fixed_width code }
{
    match code / 16 {
        0x4 => 0,
        0x5 => 1,
        0x6 => 2,
        0x7 => 4,
        0x8 => 8,
        _ => 16,
    }
}

// How many bytes follow the size of a code's data: as many as it says, or the count of a list whose size is 0.
fn behind_size(code: u8, size: usize) -> usize
    ensures { result ≡ behind_size (format code) size }
{
    match code {
        _ if size > 0 => size,
        format_code::LIST_8 | format_code::LIST_32 => size_width(code),
        _ => 0,
    }
}

// The number of so many bytes that these begin with.
fn number(width: usize, bytes: &[u8]) -> Option<usize>
    requires { (width ≡ 1) ⊎ (width ≡ 4) }
    ensures { MatchOption result (length bytes.now < width) (λ n. IsFront (IsNumber width n) bytes.now width) }
{
    match (width, bytes) {
        (1, [size, ..]) => Some(usize::from(*size)),
        (4, [a, b, c, d, ..]) => Some(u32::from_be_bytes([*a, *b, *c, *d]) as usize),
        _ => None,
    }
}

// How many bytes the data of a known code announces at the start of these.
fn announced_len(code: u8, bytes: &[u8]) -> Option<usize>
    requires { IsKnown (format code) }
    ensures { MatchOption result (Wants (format code) bytes.now) (λ n. (n ≤ length bytes.now → IsFront (IsAnnounced (format code)) bytes.now n)
        × (length bytes.now < n → Wants (format code) bytes.now)) }
{
    if code < format_code::BINARY_8 {
        return Some(fixed_width(code));
    }
    let width = size_width(code);
    let size = number(width, bytes)?;
    Some(width + behind_size(code, size))
}

// How many bytes the data of an item has that these begin with, by the code of the items.
fn item_len(code: u8, bytes: &[u8]) -> Result<usize, Error>
    ensures found { IfOk result (λ n. IsFront (IsAnnounced (format code)) bytes.now n) }
    ensures refused { IfErr result (λ e. RefusesItem code bytes.now e) }
{
    if code == format_code::DESCRIBED {
        return Err(format_code::refusal(code));
    }
    if let Some(error) = format_code::unknown(code) {
        return Err(error);
    }
    match announced_len(code, bytes) {
        Some(len) if len <= bytes.len() => Ok(len),
        _ => Err(Error::Cut),
    }
}

// The code of an array's items, and how many bytes their constructor has: descriptors, each after a 0, and then the code. If the bytes end
// before there is a code, it is 0.
fn shared_code(bytes: &[u8]) -> (u8, usize)
    ensures within { result.1 ≤ length bytes.now }
    ensures found { (ds : List Descriptor) (c : ℕ) (own behind : List ℕ) → bytes.now ≡ own ++ behind → Constructor ds c own
        → (result.0 ≡ c) × (result.1 ≡ length own) }
{
    let mut len = 0;
    while let Some((code, rest)) = bytes[len..].split_first() {
        if *code != format_code::DESCRIBED {
            return (*code, len + 1);
        }
        match term_len(rest) {
            Ok(descriptor) => len += 1 + descriptor,
            Err(_) => return (format_code::DESCRIBED, len),
        }
    }
    (format_code::DESCRIBED, len)
}

// The code of an array's items, and the place of the first item, from the data of a code that announces so many items. The code is 0 for
// other data, and the place is the end if there is no item.
fn first_item(code: u8, count: usize, bytes: &[u8]) -> (u8, usize)
    ensures within { result.1 ≤ length bytes.now }
    ensures none { count ≡ 0 → (result.0 ≡ 0) × (result.1 ≡ length bytes.now) }
    ensures array { 0 < count → kind_at code ≡ Array → (ds : List Descriptor) (c : ℕ) (own behind : List ℕ)
        → drop (head_of (format code)) bytes.now ≡ own ++ behind → Constructor ds c own
        → (result.0 ≡ c) × (result.1 ≡ head_of (format code) + length own) }
    ensures other { 0 < count → (kind_at code ≡ Array → ⊥) → head_of (format code) ≤ length bytes.now
        → (result.0 ≡ 0) × (result.1 ≡ head_of (format code)) }
{
    if count == 0 {
        return (format_code::DESCRIBED, bytes.len());
    }
    let head = head_len(code).min(bytes.len());
    match kind_of(code) {
        Kind::Array => {
            let (item_code, own) = shared_code(&bytes[head..]);
            (item_code, head + own)
        }
        _ => (format_code::DESCRIBED, head),
    }
}

impl Node {
    /// What is around a whole term, and the node of a field that is omitted.
    pub const NOTHING: Node = Node {
        kind: 0,
        depth: 0,
        code: 0,
        item_code: 0,
        count: 0,
        start: 0,
        end: 0,
        next: 0,
    };

    // The node of data of the code, which begins at the place.
    fn of_data(code: u8, bytes: &[u8], at: usize, depth: u32) -> Node
        requires { at + length bytes.now < 2 ^ 63 }
        ensures code { result.code ≡ code }
        ensures kind { result.kind ≡ kind_number (kind_at code) }
        ensures depth { result.depth ≡ depth }
        ensures starts { result.start ≡ at + head_of (format code) }
        ensures items { Announces (format code) bytes.now result.count }
        ensures ends { result.end ≡ at + length bytes.now }
        ensures next { result.next ≤ result.end }
        ensures term { (t : Term) → IsDataOf t [] code bytes.now → IsDataNode t code bytes.now at result }
    {
        let count = count_in(code, bytes);
        let (item_code, first) = first_item(code, count, bytes);
        Node {
            kind: kind_of(code) as u32 + 1,
            depth,
            code,
            item_code,
            count,
            start: at + head_len(code),
            end: at + bytes.len(),
            next: at + first,
        }
    }

    // The node of the term that the bytes begin with, which begins at the place.
    fn of_term(bytes: &[u8], at: usize, depth: u32) -> Result<Node, Error>
        requires { at + length bytes.now < 2 ^ 63 }
        ensures term { IfOk result (λ node. BeginsWithTerm bytes.now at node) }
        ensures kind { IfOk result (λ node. node.kind ≡ kind_number (kind_at node.code)) }
        ensures depth { IfOk result (λ node. node.depth ≡ depth) }
        ensures next { IfOk result (λ node. node.next ≤ node.end) }
        ensures refused { IfErr result (λ e. RefusesTerm bytes.now e) }
    {
        let len = term_len(bytes)?;
        match bytes[..len].split_first() {
            Some((code, data)) if *code != format_code::DESCRIBED => {
                Ok(Node::of_data(*code, data, at + 1, depth))
            }
            _ => Ok(Node {
                kind: Kind::Described as u32 + 1,
                depth,
                code: format_code::DESCRIBED,
                item_code: format_code::DESCRIBED,
                count: 2,
                start: at + 1,
                end: at + len,
                next: at + 1,
            }),
        }
    }

    // The node of the item of an array that the bytes begin with, whose data of this code begins at the place.
    fn of_item(code: u8, bytes: &[u8], at: usize, depth: u32) -> Result<Node, Error>
        requires { at + length bytes.now < 2 ^ 63 }
        ensures item { IfOk result (λ node. BeginsWithItem code bytes.now at node) }
        ensures kind { IfOk result (λ node. node.kind ≡ kind_number (kind_at node.code)) }
        ensures depth { IfOk result (λ node. node.depth ≡ depth) }
        ensures next { IfOk result (λ node. node.next ≤ node.end) }
        ensures refused { IfErr result (λ e. RefusesItem code bytes.now e) }
    {
        let len = item_len(code, bytes)?;
        Ok(Node::of_data(code, &bytes[..len], at, depth))
    }

    // The node that the bytes begin with, in the node around it.
    fn of_part(bytes: &[u8], at: usize, around: &Node) -> Result<Node, Error>
        requires { at + length bytes.now < 2 ^ 63 }
        ensures part { IfOk result (λ node. IsPart around.now bytes.now at node) }
        ensures kind { IfOk result (λ node. node.kind ≡ kind_number (kind_at node.code)) }
        ensures depth { IfOk result (λ node. node.depth ≡ inner_depth around.now) }
        ensures next { IfOk result (λ node. node.next ≤ node.end) }
        ensures refused { IfErr result (λ e. IsNoPart around.now bytes.now e) }
    {
        let depth = around.inner_depth();
        if around.kind == Kind::Array as u32 + 1 {
            Node::of_item(around.item_code, bytes, at, depth)
        } else {
            Node::of_term(bytes, at, depth)
        }
    }

    // The end of the node in the input: the end of the input if it is no node.
    fn reach(&self, input: &[u8]) -> usize
        ensures { result ≡ reach_of input.now self.now }
    {
        if self.kind == 0 {
            input.len()
        } else {
            self.end
        }
    }

    // How deep the nodes in it are: 0 if it is no node.
    fn inner_depth(&self) -> u32
        ensures { result ≡ inner_depth self.now }
    {
        if self.kind == 0 {
            0
        } else {
            self.depth.saturating_add(1)
        }
    }
}

/// Returns the node that begins at the offset in the enclosing node, if there is one: a whole term, or an item of an array.
pub fn next_node(input: &[u8], at: usize, around: &Node) -> Result<Node, Error>
    ensures found { IfOk result (λ node. IsNode input.now at around.now node) }
    ensures refused { IfErr result (λ e. IsNoNode input.now at around.now e) }
{
    let reach = around.reach(input);
    let Some(bytes) = input.get(at..reach) else {
        return Err(Error::Cut);
    };
    Node::of_part(bytes, at, around)
}
