//! The path to a place in a term, in the names of fields, as `attach.source.filter["x"]`.
use crate::value_text::write_value;
use amqp_catalogue::TypeName;
use amqp_descriptors::{field_name, missing_field, name_of, type_at};
use amqp_kinds::{Kind, kind_of};
use amqp_lengths::term_len;
use amqp_nodes::{Node, next_node};
use amqp_paths::{ContainerKind, Node as PathNode, Piece, path_of};
use amqp_wire::Error;
use std::alloc::{AllocError, Global};
use std::fmt::Write;

/// What the path has come to.
#[derive(Drop)]
struct Walk<'a> {
    // The term, and what is behind it.
    bytes: &'a [u8],
    text: String,
    // The type of the value that the next node is in, if it has a name.
    named: Option<TypeName>,
    // Where that value begins.
    around: usize,
    // Whether the fault is that a value is missing.
    is_missing: bool,
    // Whether the last node was an item of an array: if a descriptor describes it, it comes twice.
    in_element: bool,
}

/// Returns the path to the place `at` of the input, where the error is, from the term that begins at `from`. It is empty if it has nothing to
/// tell.
pub(crate) fn path_text(
    input: &[u8],
    from: usize,
    at: usize,
    error: Error,
    alloc: Global,
) -> Result<String, AllocError> {
    let mut walk = Walk {
        bytes: input.get(from..).unwrap_or_default(),
        text: String::new(alloc),
        named: None,
        around: 0,
        is_missing: error == Error::Missing,
        in_element: false,
    };
    let bytes = walk.bytes;
    for node in path_of(bytes, at.saturating_sub(from)) {
        walk.step(&node)?;
    }
    let Walk { text, .. } = walk;
    Ok(text)
}

impl Walk<'_> {
    // Goes on to the next node.
    fn step(&mut self, node: &PathNode) -> Result<(), AllocError> {
        let was_element = self.in_element;
        self.in_element = false;
        match node.piece {
            Piece::Value => self.enter_value(node.at)?,
            Piece::Item {
                container,
                index,
                ..
            } => {
                self.write_item(container, index)?;
                self.named = type_at(self.bytes, node.at);
            }
            Piece::Element { index, .. } => {
                if !was_element {
                    write!(self.text, "[{index}]")?;
                }
                self.in_element = true;
                self.named = None;
            }
            Piece::Descriptor => self.text.push_str("[descriptor]")?,
            Piece::ElementConstructor { .. } => self.text.push_str("[constructor]")?,
            Piece::End { count, .. } => self.write_end(count)?,
            Piece::ArrayContent { .. } => {}
        }
        self.around = node.at;
        Ok(())
    }

    // A value by itself. The whole term gives the path its first name. The value that a descriptor describes has the name of that.
    fn enter_value(&mut self, at: usize) -> Result<(), AllocError> {
        let named = type_at(self.bytes, at);
        if at == 0 {
            if let Some(whole) = named {
                self.text.push_str(name_of(whole))?;
            }
        }
        if at == 0 || named.is_some() {
            self.named = named;
        }
        Ok(())
    }

    // A field, an item, a key or the value of a key.
    fn write_item(&mut self, container: ContainerKind, index: usize) -> Result<(), AllocError> {
        if let ContainerKind::Map = container {
            return self.write_pair(index);
        }
        match self.field_name(index) {
            Some(name) => write!(self.text, ".{name}"),
            None => write!(self.text, "[{index}]"),
        }
    }

    // The place behind so many items. A mandatory field that is missing would be there.
    fn write_end(&mut self, count: usize) -> Result<(), AllocError> {
        match self.missing_field(count) {
            Some(name) => write!(self.text, ".{name}"),
            None => self.text.push_str("[end]"),
        }
    }

    fn missing_field(&self, count: usize) -> Option<&'static str> {
        if !self.is_missing {
            return None;
        }
        missing_field(self.named?, count)
    }

    // The name of the field with this number.
    fn field_name(&self, index: usize) -> Option<&'static str> {
        field_name(self.named?, index)
    }

    // A key by its number, or a value by its key.
    fn write_pair(&mut self, index: usize) -> Result<(), AllocError> {
        if index % 2 == 0 {
            return write!(self.text, "[key {}]", index / 2);
        }
        let bytes = self.bytes;
        match item_of_map(bytes, self.around, index.saturating_sub(1)) {
            Some(key) if is_primitive(&key) => {
                self.text.push('[')?;
                write_value(&mut self.text, bytes, kind_of(key.code), &key)?;
                self.text.push(']')
            }
            _ => write!(self.text, "[value {}]", index / 2),
        }
    }
}

// Whether there are no values in it.
fn is_primitive(node: &Node) -> bool {
    !matches!(
        kind_of(node.code),
        Kind::Described | Kind::List | Kind::Map | Kind::Array
    )
}

// The item with this number of the map at the place. What is behind the item need not be well formed.
fn item_of_map(input: &[u8], map: usize, index: usize) -> Option<Node> {
    let head = match input.get(map)? {
        0xc1 => 3,
        0xd1 => 9,
        _ => return None,
    };
    let mut at = map.saturating_add(head);
    for _ in 0..index {
        at = at.saturating_add(term_len(input.get(at..)?).ok()?);
    }
    next_node(input, at, &Node::NOTHING).ok()
}
