//! The entries of a block as values of JSON, each with those that are in it.
use crate::json::{put_span, put_text};
use crate::part::Part;
use amqp_descriptors::{Content, default_of, field_name, name_of};
use amqp_faults::{type_name, write_digits};
use amqp_inspect_io::json_of_value;
use amqp_outlines::{Entry, Head, Label, Longer, Shape, longer_descriptor, longer_head};
use serde_json::{Map, Value, put};
use std::alloc::{AllocError, Global};
use std::fmt::Write;

// The values in an entry that have come.
#[derive(Drop)]
enum Inner {
    Nothing,
    // By their names: the fields of a composite, or a descriptor and what is described.
    Fields(Map<String, Value>),
    Parts(Map<String, Value>),
    Items(Vec<Value>),
    // Pairs, and the key whose value comes next.
    Pairs(Vec<Value>, Option<Value>),
}

// An entry in which others may come.
#[derive(Drop)]
struct Opened {
    object: Map<String, Value>,
    label: Label,
    inner: Inner,
}

/// Returns the values of JSON for the entries that are in no other one.
pub(crate) fn json_of_entries(
    part: Part<'_>,
    entries: &[Entry],
    alloc: Global,
) -> Result<Vec<Value>, AllocError> {
    let mut whole = Vec::new(alloc);
    let mut opened: Vec<Opened> = Vec::new(alloc);
    for entry in entries {
        close_to(entry.depth, &mut opened, &mut whole, alloc)?;
        opened.push(open(part, entry, alloc)?)?;
    }
    close_to(0, &mut opened, &mut whole, alloc)?;
    Ok(whole)
}

// Ends the entries that are deeper than so many are around the next one.
fn close_to(
    depth: usize,
    opened: &mut Vec<Opened>,
    whole: &mut Vec<Value>,
    alloc: Global,
) -> Result<(), AllocError> {
    for _ in depth..opened.len() {
        let Some(last) = opened.pop() else {
            return Ok(());
        };
        let Opened {
            object,
            label,
            inner,
        } = last;
        let value = close(object, inner, alloc)?;
        match opened.last_mut() {
            Some(around) => add(&mut around.inner, label, value, alloc)?,
            None => whole.push(value)?,
        }
    }
    Ok(())
}

// The value of an entry in which nothing more comes.
fn close(mut object: Map<String, Value>, inner: Inner, alloc: Global) -> Result<Value, AllocError> {
    match inner {
        Inner::Nothing => {}
        Inner::Fields(fields) => put(&mut object, alloc, "fields", Value::Object(fields))?,
        Inner::Parts(parts) => put(&mut object, alloc, "parts", Value::Object(parts))?,
        Inner::Items(items) => put(&mut object, alloc, "items", Value::Array(items))?,
        Inner::Pairs(pairs, key) => {
            let pairs = close_pairs(pairs, key, alloc)?;
            put(&mut object, alloc, "pairs", Value::Array(pairs))?;
        }
    }
    Ok(Value::Object(object))
}

// Pairs, and a last one if the value of the last key isn't there.
fn close_pairs(
    mut pairs: Vec<Value>,
    key: Option<Value>,
    alloc: Global,
) -> Result<Vec<Value>, AllocError> {
    if let Some(key) = key {
        pairs.push(pair(key, None, alloc)?)?;
    }
    Ok(pairs)
}

// A key, and its value if it is there.
fn pair(key: Value, value: Option<Value>, alloc: Global) -> Result<Value, AllocError> {
    let mut object = Map::new(alloc);
    put(&mut object, alloc, "key", key)?;
    if let Some(value) = value {
        put(&mut object, alloc, "value", value)?;
    }
    Ok(Value::Object(object))
}

// Adds a value to those that are in an entry.
fn add(inner: &mut Inner, label: Label, value: Value, alloc: Global) -> Result<(), AllocError> {
    match inner {
        Inner::Nothing => {
            drop(value);
            Ok(())
        }
        Inner::Fields(fields) => add_member(fields, label, value, alloc),
        Inner::Parts(parts) => add_member(parts, label, value, alloc),
        Inner::Items(items) => {
            items.push(value)?;
            Ok(())
        }
        Inner::Pairs(pairs, key) => match key.take() {
            Some(first) => {
                pairs.push(pair(first, Some(value), alloc)?)?;
                Ok(())
            }
            None => {
                *key = Some(value);
                Ok(())
            }
        },
    }
}

// Adds a value by its name.
fn add_member(
    members: &mut Map<String, Value>,
    label: Label,
    value: Value,
    alloc: Global,
) -> Result<(), AllocError> {
    match label {
        Label::Field(named, index) => {
            put(
                members,
                alloc,
                field_name(named, index).unwrap_or_default(),
                value,
            )
        }
        Label::Item(index) => {
            let mut name = String::new(alloc);
            write!(name, "[{index}]")?;
            drop(members.insert(name, value)?);
            Ok(())
        }
        Label::Descriptor => put(members, alloc, "descriptor", value),
        _ => put(members, alloc, "value", value),
    }
}

// An entry, before those in it come.
fn open(part: Part<'_>, entry: &Entry, alloc: Global) -> Result<Opened, AllocError> {
    let mut object = Map::new(alloc);
    put_text(&mut object, "type", name_of_shape(&entry.shape), alloc)?;
    put_span(&mut object, part, "span", (entry.from, entry.to), alloc)?;
    if !entry.is_whole {
        put(&mut object, alloc, "broken", Value::Bool(true))?;
    }
    put_content(&mut object, part, entry, alloc)?;
    if let Some(longer) = longer_descriptor(part.bytes, entry) {
        put_canonical(&mut object, "canonical-descriptor", &longer, alloc)?;
    }
    if let Some(longer) = longer_head(part.bytes, entry) {
        put_canonical(&mut object, "canonical", &longer, alloc)?;
    }
    Ok(Opened {
        object,
        label: entry.label,
        inner: inner_of(&entry.shape, alloc),
    })
}

fn name_of_shape(shape: &Shape) -> &'static str {
    match *shape {
        Shape::Primitive(kind) => type_name(kind),
        Shape::Omitted => "null",
        Shape::List => "list",
        Shape::Map => "map",
        Shape::Array(_, _) => "array",
        Shape::Named(named, _) => name_of(named),
        Shape::Described => "described",
    }
}

// The value of a primitive or of an omitted field, and the type of an array's items.
fn put_content(
    object: &mut Map<String, Value>,
    part: Part<'_>,
    entry: &Entry,
    alloc: Global,
) -> Result<(), AllocError> {
    match (entry.shape, entry.label) {
        (Shape::Primitive(kind), _) => {
            let value = json_of_value(part.bytes, kind, &entry.node, alloc)?;
            put(object, alloc, "value", value)
        }
        (Shape::Omitted, Label::Field(named, index)) => {
            let value = default_of(named, index).unwrap_or_default();
            put_text(object, "default", value, alloc)
        }
        (Shape::Array(kind, is_described), _) => {
            put_text(object, "of", type_name(kind), alloc)?;
            put(object, alloc, "described", Value::Bool(is_described))
        }
        _ => Ok(()),
    }
}

// The values in a value, before they come.
fn inner_of(shape: &Shape, alloc: Global) -> Inner {
    match shape {
        Shape::List | Shape::Array(_, _) | Shape::Named(_, Content::Items) => {
            Inner::Items(Vec::new(alloc))
        }
        Shape::Map | Shape::Named(_, Content::Pairs) => Inner::Pairs(Vec::new(alloc), None),
        Shape::Named(_, Content::Fields) => Inner::Fields(Map::new(alloc)),
        Shape::Named(_, _) | Shape::Described => Inner::Parts(Map::new(alloc)),
        Shape::Primitive(_) | Shape::Omitted => Inner::Nothing,
    }
}

// The canonical encoding of bytes that aren't it, in hexadecimal digits.
fn put_canonical(
    object: &mut Map<String, Value>,
    name: &str,
    longer: &Longer,
    alloc: Global,
) -> Result<(), AllocError> {
    let mut digits = String::new(alloc);
    match longer.canonical {
        Head::One(a) => write_digits(&mut digits, &[a])?,
        Head::Two(a, b) => write_digits(&mut digits, &[a, b])?,
        Head::Three(a, b, c) => write_digits(&mut digits, &[a, b, c])?,
    }
    put(object, alloc, name, Value::String(digits))
}
