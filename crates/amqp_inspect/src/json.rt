//! Blocks as JSON (RFC 8259): an object in a line for each.
ghost use Rattle.std.specs.Prelude.{IfOk, string_bytes};
ghost use Rattle.serde_json.specs.Data.{Data};
ghost use Rattle.serde_json.specs.Written.{IsInOrder};

use crate::json_entries::json_of_entries;
use crate::part::Part;
use amqp_blocks::{Block, Span, Subject};
use amqp_faults::Fault;
use amqp_frames::{FrameKind, ProtocolHeader, ProtocolId};
use serde_json::{Map, Value, put};
use std::alloc::{AllocError, Global};
use std::fmt::Write;

/// Returns a block as an object in a line, without the line's end.
pub(crate) fn json_of_block(
    part: Part<'_>,
    block: &Block,
    alloc: Global,
) -> Result<String, AllocError>
    ensures { IfOk result (λ text. (value : Data) × IsInOrder (string_bytes text) value) }
{
    let value = Value::Object(object_of_block(part, block, alloc)?);
    text_of(&value, alloc)
}

// The text of a value.
fn text_of(value: &Value, alloc: Global) -> Result<String, AllocError>
    ensures { IfOk result (λ text. (value : Data) × IsInOrder (string_bytes text) value) }
{
    value.to_string(alloc)
}

// The members of a block.
fn object_of_block(
    part: Part<'_>,
    block: &Block,
    alloc: Global,
) -> Result<Map<String, Value>, AllocError> {
    let mut object = Map::new(alloc);
    put_subject(&mut object, &block.subject, alloc)?;
    put_span(&mut object, part, "span", (0, block.len), alloc)?;
    if let Some(extended) = block.extended {
        put_span(&mut object, part, "extended", extended, alloc)?;
    }
    let mut values = json_of_entries(part, block.value.as_slice(), alloc)?;
    if let Some(value) = values.pop() {
        put(&mut object, alloc, "value", value)?;
    }
    drop(values);
    if let Some(payload) = block.payload {
        put_span(&mut object, part, "payload", payload, alloc)?;
    }
    let sections = json_of_entries(part, block.message.as_slice(), alloc)?;
    if !sections.is_empty() {
        put(&mut object, alloc, "message", Value::Array(sections))?;
    }
    put_faults(&mut object, part, block.faults.as_slice(), alloc)?;
    Ok(object)
}

/// Adds a member that is a text.
pub(crate) fn put_text(
    object: &mut Map<String, Value>,
    name: &str,
    text: &str,
    alloc: Global,
) -> Result<(), AllocError> {
    put(object, alloc, name, Value::try_from_str(alloc, text)?)
}

/// Adds a member that is a span: the places in the input of its first byte and behind its last one.
pub(crate) fn put_span(
    object: &mut Map<String, Value>,
    part: Part<'_>,
    name: &str,
    span: Span,
    alloc: Global,
) -> Result<(), AllocError> {
    let mut places = Vec::new(alloc);
    places.push(Value::from(part.place(span.0)))?;
    places.push(Value::from(part.place(span.1)))?;
    put(object, alloc, name, Value::Array(places))
}

// What the block is of.
fn put_subject(
    object: &mut Map<String, Value>,
    subject: &Subject,
    alloc: Global,
) -> Result<(), AllocError> {
    let what = match subject {
        Subject::ProtocolHeader(_) => "protocol-header",
        Subject::Frame(_) => "frame",
        Subject::NoFrame => "no-frame",
        Subject::CutFrame => "cut-frame",
        Subject::Section => "section",
        Subject::Term => "term",
        Subject::Rest => "rest",
    };
    put_text(object, "what", what, alloc)?;
    match subject {
        Subject::ProtocolHeader(header) => put_header(object, header, alloc),
        Subject::Frame(FrameKind::Amqp { channel }) => {
            put(object, alloc, "channel", Value::from(*channel))?;
            put_text(object, "type", "amqp", alloc)
        }
        Subject::Frame(FrameKind::Sasl) => put_text(object, "type", "sasl", alloc),
        _ => Ok(()),
    }
}

fn put_header(
    object: &mut Map<String, Value>,
    header: &ProtocolHeader,
    alloc: Global,
) -> Result<(), AllocError> {
    let ProtocolId(id) = header.id;
    put(object, alloc, "id", Value::from(id))?;
    let mut version = Vec::new(alloc);
    version.push(Value::from(header.major))?;
    version.push(Value::from(header.minor))?;
    version.push(Value::from(header.revision))?;
    put(object, alloc, "version", Value::Array(version))
}

// The member of the faults.
fn put_faults(
    object: &mut Map<String, Value>,
    part: Part<'_>,
    faults: &[Fault],
    alloc: Global,
) -> Result<(), AllocError> {
    let mut list = Vec::new(alloc);
    for fault in faults {
        list.push(json_of_fault(part, fault, alloc)?)?;
    }
    put(object, alloc, "faults", Value::Array(list))
}

fn json_of_fault(part: Part<'_>, fault: &Fault, alloc: Global) -> Result<Value, AllocError> {
    let mut object = Map::new(alloc);
    let cause = fault.cause;
    let mut sentence = String::new(alloc);
    write!(sentence, "{cause}")?;
    put_text(&mut object, "error", cause.name(), alloc)?;
    put(&mut object, alloc, "sentence", Value::String(sentence))?;
    put(&mut object, alloc, "at", Value::from(part.place(fault.at)))?;
    put_text(&mut object, "path", fault.path.as_str(), alloc)?;
    Ok(Value::Object(object))
}
