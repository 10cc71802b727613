//! The fields of a composite, by their numbers (Part 1, section 1.4).
ghost use Rattle.std.specs.Prelude.{◌≡◌, IfOk, IfErr, MatchOption};
ghost use Rattle.amqp_nodes.specs.Fields.{IsItem, IsNoItem, IsListOf, HasNoList, IsField, IsOmitted, HasNoField};

use crate::nodes::{Node, next_node};
use amqp_kinds::Kind;
use amqp_wire::Error;

// The node of the item with this number, counted from 0, in the enclosing node.
fn item_node(input: &[u8], around: &Node, index: usize) -> Result<Node, Error>
    ensures found { IfOk result (λ node. IsItem input.now around.now index node) }
    ensures refused { IfErr result (λ e. IsNoItem input.now around.now index e) }
{
    let mut at = around.next;
    'items: for _ in 0..index {
        at = next_node(input, at, around)?.end;
    }
    next_node(input, at, around)
}

// The list of a composite's fields, which its descriptor describes.
fn list_node(input: &[u8], composite: &Node) -> Result<Node, Error>
    ensures found { IfOk result (λ fields. IsListOf input.now composite.now fields) }
    ensures refused { IfErr result (λ e. HasNoList input.now composite.now e) }
{
    if composite.kind != Kind::Described as u32 + 1 {
        return Err(Error::WrongType(composite.code));
    }
    let fields = item_node(input, composite, 1)?;
    if fields.kind != Kind::List as u32 + 1 {
        return Err(Error::WrongType(fields.code));
    }
    Ok(fields)
}

/// Returns the node of the field with this number, counted from 0, in a composite, or `None` if the field is omitted.
pub fn field_node(input: &[u8], composite: &Node, index: usize) -> Result<Option<Node>, Error>
    ensures found { IfOk result (λ field. MatchOption field (IsOmitted input.now composite.now index)
        (λ node. IsField input.now composite.now index node)) }
    ensures refused { IfErr result (λ e. HasNoField input.now composite.now index e) }
{
    let fields = list_node(input, composite)?;
    if index >= fields.count {
        return Ok(None);
    }
    let node = item_node(input, &fields, index)?;
    if node.kind == Kind::Null as u32 + 1 {
        return Ok(None);
    }
    Ok(Some(node))
}
