//! The values in a term, one after another, each with its place, its depth and its name: what is printed of the term.
ghost use Rattle.std.specs.Prelude.{◌≡◌, ◌≤◌, ◌<◌, ◌+◌, ℕ, List, [], ◌∷◌, ◌++◌, length, IfOk, OnOk, IfSome, unwrap_or};
ghost use Rattle.amqp_outlines.specs.declared.entry.Entry.{Entry};
ghost use Rattle.amqp_outlines.specs.declared.outline.Open.{Open};
ghost use Rattle.amqp_outlines.specs.Spans.{IsOutline};
ghost use Rattle.amqp_outlines.specs.Outlines.{IsMet, IsMetAt, IsInside, IfPart, Grows, Meets};

use crate::broken::broken_node;
use crate::entry::{Entry, Label, Shape};
use amqp_catalogue::TypeName;
use amqp_descriptors::{Content, content_of, default_of, field_names, type_of_descriptor};
use amqp_kinds::{Kind, kind_of};
use amqp_nodes::{Node, next_node};
use std::alloc::{AllocError, Global};

/// How deep values nest that the library reads. What is deeper is not told.
const MOST_DEPTH: usize = 128;

// What the values in an open one are.
#[derive(Clone, Copy)]
enum Labels {
    Fields(TypeName),
    Items,
    Pairs,
    DescriptorAndValue,
    Value,
}

// A value whose parts come next.
#[derive(Clone, Copy)]
struct Open {
    node: Node,
    is_whole: bool,
    labels: Labels,
    // How many entries are around its parts.
    depth: usize,
    // How many of the parts have come, and where the next one begins.
    taken: usize,
    next: usize,
}

// A value that is met: where it begins, its node, and whether it is whole.
#[derive(Clone, Copy)]
struct Met {
    from: usize,
    node: Node,
    has_code: bool,
    is_whole: bool,
}

impl Met {
    // A value that begins at the place in the enclosing node.
    fn new(from: usize, node: Node, around: &Node, is_whole: bool) -> Met
        ensures from { result.from ≡ from }
        ensures node { result.node ≡ node }
    {
        Met {
            from,
            node,
            has_code: around.kind != Kind::Array as u32 + 1,
            is_whole,
        }
    }

    // Where a whole value ends.
    fn end(&self) -> Option<usize>
        ensures { IfSome result (λ end. end ≡ self.now.node.end) }
    {
        if self.is_whole {
            Some(self.node.end)
        } else {
            None
        }
    }
}

// The value that begins at the place in the enclosing node: whole, or its begin.
fn met_at(input: &[u8], at: usize, around: &Node) -> Option<Met>
    ensures { IfSome result (IsMetAt input.now at around.now) }
{
    match next_node(input, at, around) {
        Ok(node) => Some(Met::new(at, node, around, true)),
        Err(_) => begun_at(input, at, around),
    }
}

// The begin of the value at the place in the enclosing node.
fn begun_at(input: &[u8], at: usize, around: &Node) -> Option<Met>
    ensures { IfSome result (IsMetAt input.now at around.now) }
{
    let node = broken_node(input, at, around)?;
    Some(Met::new(at, node, around, false))
}

/// What is told of a term.
#[derive(Drop)]
pub struct Outline {
    pub entries: Vec<Entry>,
    /// Where the term ends, if one begins at the place. Otherwise the entries are those of what comes before the fault, each value around
    /// the fault with its begin.
    pub end: Option<usize>,
}

/// Returns the outline of the term that begins at the place.
pub fn outline_at(input: &[u8], at: usize, alloc: Global) -> Result<Outline, AllocError>
    ensures outline { at ≤ length input.now → IfOk result (λ o. IsOutline at (unwrap_or o.end (length input.now)) o.entries.items) }
    ensures ends { IfOk result (λ o. IfSome o.end (λ end. (at < end) × (end ≤ length input.now))) }
{
    let mut entries = Vec::new(alloc);
    let end = add_outline(input, at, &mut entries, alloc)?;
    Ok(Outline { entries, end })
}

/// Appends the entries of the term that begins at the place to those of what comes before it, and returns where the term ends. If no term
/// begins there, it returns `None`, and the entries are as those of an outline.
pub fn add_outline(
    input: &[u8],
    at: usize,
    entries: &mut Vec<Entry>,
    alloc: Global,
) -> Result<Option<usize>, AllocError>
    ensures outline { at ≤ length input.now → (l : ℕ) → l ≤ at → IsOutline l at entries.old.items
        → IfOk result (λ end. IsOutline l (unwrap_or end (length input.now)) entries.new.items) }
    ensures ends { IfOk result (λ found. IfSome found (λ end. (at < end) × (end ≤ length input.now))) }
{
    match met_at(input, at, &Node::NOTHING) {
        None => Ok(None),
        Some(root) => add_root(input, &root, entries, alloc),
    }
}

// Appends the entries of the term that is met, and returns where it ends if it is whole.
fn add_root(
    input: &[u8],
    root: &Met,
    entries: &mut Vec<Entry>,
    alloc: Global,
) -> Result<Option<usize>, AllocError>
    requires { IsMet root.now }
    ensures outline { root.now.node.end ≤ length input.now → (l : ℕ) → l ≤ root.now.from → IsOutline l root.now.from entries.old.items
        → IfOk result (λ end. IsOutline l (unwrap_or end (length input.now)) entries.new.items) }
    ensures ends { root.now.from < root.now.node.end → root.now.node.end ≤ length input.now
        → IfOk result (λ found. IfSome found (λ end. (root.now.from < end) × (end ≤ length input.now))) }
{
    add_values(input, root, entries, alloc)?;
    Ok(root.end())
}

// Appends the entries of a value that is in no other one, and of the values in it.
fn add_values(
    input: &[u8],
    root: &Met,
    entries: &mut Vec<Entry>,
    alloc: Global,
) -> Result<(), AllocError>
    requires { IsMet root.now }
    ensures { (l : ℕ) → l ≤ root.now.from → IsOutline l root.now.from entries.old.items
        → OnOk result (IsOutline l root.now.node.end entries.new.items) }
{
    let mut opened = Vec::new(alloc);
    enter(input, root, Label::Whole, 0, &mut opened, entries)?;
    // Each value has a byte of its own. One step meets it, and one step leaves it.
    let len = root.node.end.saturating_sub(root.from);
    add_parts(input, len.saturating_mul(2), &mut opened, entries)
}

// Takes so many steps, or fewer if nothing comes next.
fn add_parts(
    input: &[u8],
    steps: usize,
    opened: &mut Vec<Open>,
    entries: &mut Vec<Entry>,
) -> Result<(), AllocError>
    ensures { (l n : ℕ) → Grows l n entries.old.items opened.old.items → OnOk result (Grows l n entries.new.items opened.new.items) }
{
    'values: for _ in 0..steps {
        if !step(input, opened, entries)? {
            return Ok(());
        }
    }
    Ok(())
}

// Meets the next value, or leaves one. It returns whether there is more: nothing is behind a value that isn't whole.
fn step(input: &[u8], opened: &mut Vec<Open>, entries: &mut Vec<Entry>) -> Result<bool, AllocError>
    ensures { (l n : ℕ) → Grows l n entries.old.items opened.old.items → OnOk result (Grows l n entries.new.items opened.new.items) }
{
    match opened.pop() {
        None => Ok(false),
        Some(around) => step_in(input, around, opened, entries),
    }
}

// The same in the value that was opened last, and has been taken from the others.
fn step_in(
    input: &[u8],
    around: Open,
    opened: &mut Vec<Open>,
    entries: &mut Vec<Entry>,
) -> Result<bool, AllocError>
    ensures { (l n : ℕ) → Grows l n entries.old.items (opened.old.items ++ around ∷ [])
        → OnOk result (Grows l n entries.new.items opened.new.items) }
{
    match next_in(input, &around) {
        Next::Part(met) => meet(input, &around, &met, opened, entries),
        Next::Nothing => Ok(false),
        Next::End => leave(&around, entries),
    }
}

// What comes next in a value: a part, nothing that is known, or its end.
#[derive(Clone, Copy)]
enum Next {
    Part(Met),
    Nothing,
    End,
}

fn next_in(input: &[u8], around: &Open) -> Next
    ensures { IfPart (IsMetAt input.now around.now.next around.now.node) result }
{
    if around.taken >= around.node.count {
        return Next::End;
    }
    match met_at(input, around.next, &around.node) {
        Some(met) => Next::Part(met),
        None => Next::Nothing,
    }
}

// Goes on behind the value that is met in the one around it, with the values in it.
fn meet(
    input: &[u8],
    around: &Open,
    met: &Met,
    opened: &mut Vec<Open>,
    entries: &mut Vec<Entry>,
) -> Result<bool, AllocError>
    requires { IsMetAt input.now around.now.next around.now.node met.now }
    ensures { (l n : ℕ) → Grows l n entries.old.items (opened.old.items ++ around.now ∷ [])
        → OnOk result (Grows l n entries.new.items opened.new.items) }
{
    let later = around.behind_part(met);
    opened.push(later)?;
    enter(input, met, around.label(), around.depth, opened, entries)
}

// Leaves a value, whose parts have all come.
fn leave(around: &Open, entries: &mut Vec<Entry>) -> Result<bool, AllocError>
    ensures { (l n : ℕ) (opened : List Open) → Grows l n entries.old.items (opened ++ around.now ∷ [])
        → OnOk result (Grows l n entries.new.items opened) }
{
    add_left_out(around, entries)?;
    Ok(around.is_whole)
}

// Appends the fields that are left out behind the last one, and have a default value.
fn add_left_out(around: &Open, entries: &mut Vec<Entry>) -> Result<(), AllocError>
    ensures { (l n : ℕ) (opened : List Open) → Grows l n entries.old.items (opened ++ around.now ∷ [])
        → OnOk result (Grows l n entries.new.items (opened ++ around.now ∷ [])) }
{
    let Labels::Fields(named) = around.labels else {
        return Ok(());
    };
    if !around.is_whole {
        return Ok(());
    }
    'omitted: for index in around.taken..field_names(named).len() {
        add_omitted(around, named, index, entries)?;
    }
    Ok(())
}

// Appends the field with this number, if it has a default value.
fn add_omitted(
    around: &Open,
    named: TypeName,
    index: usize,
    entries: &mut Vec<Entry>,
) -> Result<(), AllocError>
    ensures { (l n : ℕ) (opened : List Open) → Grows l n entries.old.items (opened ++ around.now ∷ [])
        → OnOk result (Grows l n entries.new.items (opened ++ around.now ∷ [])) }
{
    if default_of(named, index).is_none() {
        return Ok(());
    }
    entries.push(omitted_field(around, named, index))?;
    Ok(())
}

// The entry of a field that is left out.
fn omitted_field(around: &Open, named: TypeName, index: usize) -> Entry
    ensures depth { result.depth ≡ around.now.depth }
    ensures from { result.from ≡ around.now.next }
    ensures to { result.to ≡ around.now.next }
{
    Entry {
        depth: around.depth,
        label: Label::Field(named, index),
        shape: Shape::Omitted,
        from: around.next,
        to: around.next,
        node: Node::NOTHING,
        has_code: false,
        is_whole: true,
    }
}

// What is told of a value: what it is, and the values in it that come next.
#[derive(Clone, Copy)]
struct Shown {
    shape: Shape,
    inside: Option<Open>,
}

// Appends the entry of a value. If there are values in it, they come next. It returns whether there may be more.
fn enter(
    input: &[u8],
    met: &Met,
    label: Label,
    depth: usize,
    opened: &mut Vec<Open>,
    entries: &mut Vec<Entry>,
) -> Result<bool, AllocError>
    requires { IsMet met.now }
    ensures { (l n : ℕ) → Grows l n entries.old.items opened.old.items → Meets l n depth met.now entries.old.items opened.old.items
        → OnOk result (Grows l n entries.new.items opened.new.items) }
{
    match shown_as(input, met, label) {
        None => Ok(true),
        Some(shown) => enter_shown(met, label, depth, shown, opened, entries),
    }
}

// The same of a value that is told.
fn enter_shown(
    met: &Met,
    label: Label,
    depth: usize,
    shown: Shown,
    opened: &mut Vec<Open>,
    entries: &mut Vec<Entry>,
) -> Result<bool, AllocError>
    requires met { IsMet met.now }
    requires inside { IfSome shown.inside (IsInside met.now) }
    ensures { (l n : ℕ) → Grows l n entries.old.items opened.old.items → Meets l n depth met.now entries.old.items opened.old.items
        → OnOk result (Grows l n entries.new.items opened.new.items) }
{
    entries.push(entry_of(met, label, depth, &shown))?;
    match shown.inside {
        Some(parts) => open_parts(parts, depth, met.is_whole, opened),
        None => Ok(met.is_whole),
    }
}

// Opens the parts of a value, which come next if they aren't too deep.
fn open_parts(
    parts: Open,
    depth: usize,
    is_whole: bool,
    opened: &mut Vec<Open>,
) -> Result<bool, AllocError>
    ensures { (l n : ℕ) (entries : List Entry) → Grows l n entries opened.old.items
        → Grows l n entries (opened.old.items ++ record parts { depth = depth + 1 } ∷ []) → OnOk result (Grows l n entries opened.new.items) }
{
    if depth > MOST_DEPTH {
        return Ok(is_whole);
    }
    opened.push(Open {
        depth: depth + 1,
        ..parts
    })?;
    Ok(true)
}

// The entry of a value. Its node is that of the list or map in it that comes next, if there is one.
fn entry_of(met: &Met, label: Label, depth: usize, shown: &Shown) -> Entry
    ensures depth { result.depth ≡ depth }
    ensures from { result.from ≡ met.now.from }
    ensures to { result.to ≡ met.now.node.end }
{
    Entry {
        depth,
        label,
        shape: shown.shape,
        from: met.from,
        to: met.node.end,
        node: match shown.inside {
            Some(inside) => inside.node,
            None => met.node,
        },
        has_code: met.has_code,
        is_whole: met.is_whole,
    }
}

// What is told of a value with this label. A field that is null is omitted (Part 1, section 1.4): it is told only if it has a default value.
fn shown_as(input: &[u8], met: &Met, label: Label) -> Option<Shown>
    requires { IsMet met.now }
    ensures { IfSome result (λ shown. IfSome shown.inside (IsInside met.now)) }
{
    if let (Label::Field(named, index), Kind::Null) = (label, kind_of(met.node.code)) {
        if default_of(named, index).is_none() {
            return None;
        }
        return Some(Shown {
            shape: Shape::Omitted,
            inside: None,
        });
    }
    let (shape, inside) = shape_of(input, met);
    Some(Shown { shape, inside })
}

// What a value is, and which values in it come next.
fn shape_of(input: &[u8], met: &Met) -> (Shape, Option<Open>)
    requires { IsMet met.now }
    ensures { IfSome result.1 (IsInside met.now) }
{
    match kind_of(met.node.code) {
        Kind::Described => described(input, met),
        Kind::List => (Shape::List, Some(Open::new(met, Labels::Items))),
        Kind::Map => (Shape::Map, Some(Open::new(met, Labels::Pairs))),
        Kind::Array => (
            array_shape(input, &met.node),
            Some(Open::new(met, Labels::Items)),
        ),
        primitive => (Shape::Primitive(primitive), None),
    }
}

// What a described value is, and which values in it come next.
fn described(input: &[u8], met: &Met) -> (Shape, Option<Open>)
    requires { IsMet met.now }
    ensures { IfSome result.1 (IsInside met.now) }
{
    let Ok(descriptor) = next_node(input, met.node.next, &met.node) else {
        return (Shape::Described, None);
    };
    let Some(named) = type_of_descriptor(input, &descriptor) else {
        let parts = Open::new(met, Labels::DescriptorAndValue);
        return (Shape::Described, Some(parts));
    };
    let behind = descriptor.end.max(met.from).min(met.node.end);
    match listed(input, met, behind, named) {
        Some(fields) => (Shape::Named(named, content_of(named)), Some(fields)),
        None => {
            let value = Open::behind(met, behind);
            (Shape::Named(named, Content::Any), Some(value))
        }
    }
}

// The list or the map that the type's descriptor describes, which begins at the place, if it is one.
fn listed(input: &[u8], met: &Met, at: usize, named: TypeName) -> Option<Open>
    requires met { IsMet met.now }
    requires behind { met.now.from ≤ at }
    ensures { IfSome result (IsInside met.now) }
{
    let value = met_at(input, at, &met.node)?;
    let labels = match (content_of(named), kind_of(value.node.code)) {
        (Content::Fields, Kind::List) => Labels::Fields(named),
        (Content::Items, Kind::List) => Labels::Items,
        (Content::Pairs, Kind::Map) => Labels::Pairs,
        _ => return None,
    };
    Some(Open {
        is_whole: met.is_whole && value.is_whole,
        ..Open::new(&value, labels)
    })
}

impl Open {
    // A value that is met, whose parts come next.
    fn new(met: &Met, labels: Labels) -> Open
        requires { IsMet met.now }
        ensures { IsInside met.now result }
    {
        Open {
            node: met.node,
            is_whole: met.is_whole,
            labels,
            depth: 0,
            taken: 0,
            next: met.node.next.max(met.from),
        }
    }

    // A described value whose descriptor ends at the place.
    fn behind(met: &Met, at: usize) -> Open
        requires met { IsMet met.now }
        requires begins { met.now.from ≤ at }
        requires ends { at ≤ met.now.node.end }
        ensures { IsInside met.now result }
    {
        Open {
            node: met.node,
            is_whole: met.is_whole,
            labels: Labels::Value,
            depth: 0,
            taken: 1,
            next: at,
        }
    }

    // The same behind the part that is met.
    fn behind_part(&self, met: &Met) -> Open
        ensures { result ≡ record self.now { taken = result.taken; next = met.now.node.end } }
    {
        Open {
            taken: self.taken.saturating_add(1),
            next: met.node.end,
            ..*self
        }
    }

    // What the next value is.
    fn label(&self) -> Label {
        let index = self.taken;
        match self.labels {
            Labels::Fields(named) if index < field_names(named).len() => {
                Label::Field(named, index)
            }
            Labels::Fields(_) | Labels::Items => Label::Item(index),
            Labels::Pairs if index % 2 == 0 => Label::Key(index / 2),
            Labels::Pairs => Label::ValueOfKey(index / 2),
            Labels::DescriptorAndValue if index == 0 => Label::Descriptor,
            Labels::DescriptorAndValue | Labels::Value => Label::Described,
        }
    }
}

// An array: the kind of its items, and whether their constructor begins with a descriptor (Part 1, section 1.2.4).
fn array_shape(input: &[u8], node: &Node) -> Shape {
    let is_described = node.count > 0 && input.get(node.start) == Some(&0);
    Shape::Array(kind_of(node.item_code), is_described)
}
