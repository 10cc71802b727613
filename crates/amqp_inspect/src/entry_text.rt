//! The entries of a block as lines of text.
use crate::part::Part;
use amqp_blocks::Span;
use amqp_descriptors::{default_of, field_name, is_true, meaning, name_of, unsigned};
use amqp_faults::{type_name, write_digits, write_value};
use amqp_inspect_io::Colours;
use amqp_kinds::Kind;
use amqp_outlines::{Entry, Head, Label, Longer, Shape, longer_descriptor, longer_head};
use std::alloc::AllocError;
use std::fmt::Write;

/// The most bytes of an encoding that isn't canonical which are printed.
const MOST_BYTES: usize = 16;

/// Appends a line for each entry. The value of a key is on the line of the key if nothing is in the key.
pub(crate) fn write_entries(
    out: &mut String,
    part: Part<'_>,
    entries: &[Entry],
    shift: usize,
) -> Result<(), AllocError> {
    let mut in_line = false;
    for entry in entries {
        if !in_line {
            write_margin(out, entry.depth.saturating_add(shift))?;
        }
        write_label(out, part.colours, &entry.label, &entry.shape, in_line)?;
        write_shape(out, part, entry)?;
        in_line = is_short_key(entry);
        out.push_str(if in_line { ": " } else { "\n" })?;
    }
    if in_line {
        // The value of the last key isn't there.
        out.push_str("..\n")?;
    }
    Ok(())
}

// Two spaces for each entry around the line's.
fn write_margin(out: &mut String, depth: usize) -> Result<(), AllocError> {
    for _ in 0..depth {
        out.push_str("  ")?;
    }
    Ok(())
}

// Whether an entry is a key in which nothing is.
fn is_short_key(entry: &Entry) -> bool {
    matches!(
        (entry.label, entry.shape),
        (Label::Key(_), Shape::Primitive(_))
    )
}

// What comes before a value.
fn write_label(
    out: &mut String,
    colours: Colours,
    label: &Label,
    shape: &Shape,
    in_line: bool,
) -> Result<(), AllocError> {
    match (*label, *shape) {
        (Label::Whole, _) | (Label::Key(_), Shape::Primitive(_)) => Ok(()),
        (Label::Field(named, index), _) => {
            let name = field_name(named, index).unwrap_or_default();
            write!(out, "{}{name}{}: ", colours.name, colours.end)
        }
        (Label::Item(index), _) => write!(out, "[{index}]: "),
        (Label::Key(_), _) => out.push_str("key: "),
        (Label::ValueOfKey(_), _) if in_line => Ok(()),
        (Label::ValueOfKey(_) | Label::Described, _) => out.push_str("value: "),
        (Label::Descriptor, _) => out.push_str("descriptor: "),
    }
}

// A value: its content or its size, its type and its place.
fn write_shape(out: &mut String, part: Part<'_>, entry: &Entry) -> Result<(), AllocError> {
    let colours = part.colours;
    if let (Shape::Omitted, Label::Field(named, index)) = (entry.shape, entry.label) {
        let value = default_of(named, index).unwrap_or_default();
        return write!(out, "{}{value} (default){}", colours.faint, colours.end);
    }
    write_content(out, part, entry)?;
    if !entry.is_whole {
        write!(out, "{}broken{}, ", colours.fault, colours.end)?;
    }
    write_span(out, part, (entry.from, entry.to))?;
    if let Some(descriptor) = longer_descriptor(part.bytes, entry) {
        out.push_str("; descriptor ")?;
        write_longer(out, part, &descriptor)?;
    }
    if let Some(head) = longer_head(part.bytes, entry) {
        out.push_str("; ")?;
        write_longer(out, part, &head)?;
    }
    out.push(')')
}

// What comes before the span: the value or the size, and the type.
fn write_content(out: &mut String, part: Part<'_>, entry: &Entry) -> Result<(), AllocError> {
    let count = entry.node.count;
    match entry.shape {
        Shape::Primitive(kind) => {
            write_value(out, part.bytes, kind, &entry.node)?;
            if let Some(meaning) = meaning_of(part.bytes, kind, entry) {
                write!(out, ", {meaning}")?;
            }
            write!(out, " ({}, ", type_name(kind))
        }
        Shape::Omitted => out.push_str("null ("),
        Shape::List => write_count(out, "list", count, "item"),
        Shape::Map => write_count(out, "map", count / 2, "pair"),
        Shape::Array(kind, is_described) if count > 0 => {
            write_array(out, type_name(kind), is_described, count)
        }
        Shape::Array(_, _) => write_count(out, "array", count, "item"),
        Shape::Named(named, _) => {
            let colours = part.colours;
            write!(
                out,
                "{}{}{} (",
                colours.heading,
                name_of(named),
                colours.end
            )
        }
        Shape::Described => out.push_str("described value ("),
    }
}

// How many bytes an encoding has, which isn't canonical, with the canonical one.
fn write_longer(out: &mut String, part: Part<'_>, longer: &Longer) -> Result<(), AllocError> {
    let bytes = part.bytes.get(longer.from..longer.to).unwrap_or_default();
    let shown = bytes.get(..MOST_BYTES).unwrap_or(bytes);
    out.push_str(part.colours.longer)?;
    write_spaced(out, shown)?;
    if bytes.len() > MOST_BYTES {
        out.push_str(" ..")?;
    }
    out.push_str(", canonical ")?;
    write_canonical(out, &longer.canonical)?;
    out.push_str(part.colours.end)
}

fn write_canonical(out: &mut String, head: &Head) -> Result<(), AllocError> {
    match *head {
        Head::One(a) => write_spaced(out, &[a]),
        Head::Two(a, b) => write_spaced(out, &[a, b]),
        Head::Three(a, b, c) => write_spaced(out, &[a, b, c]),
    }
}

// Bytes in hexadecimal digits, with spaces between them.
fn write_spaced(out: &mut String, bytes: &[u8]) -> Result<(), AllocError> {
    for (index, byte) in bytes.iter().enumerate() {
        if index > 0 {
            out.push(' ')?;
        }
        write_digits(out, &[*byte])?;
    }
    Ok(())
}

/// Appends how many bytes a span has, and where it begins in the input.
pub(crate) fn write_span(out: &mut String, part: Part<'_>, span: Span) -> Result<(), AllocError> {
    let (from, to) = span;
    let len = to.saturating_sub(from);
    let plural = if len == 1 { "" } else { "s" };
    write!(out, "{len} byte{plural} at {}", part.place(from))
}

// What the number in a field means, if its type gives it a name.
fn meaning_of(bytes: &[u8], kind: Kind, entry: &Entry) -> Option<&'static str> {
    let Label::Field(named, index) = entry.label else {
        return None;
    };
    let node = entry.node;
    let data = bytes.get(node.start..node.end)?;
    let number = match kind {
        Kind::Bool => u64::from(is_true(node.code, data)),
        _ => unsigned(data),
    };
    meaning(field_name(named, index)?, kind, number)
}

// A container, and how many items or pairs it has.
fn write_count(out: &mut String, name: &str, count: usize, unit: &str) -> Result<(), AllocError> {
    let plural = if count == 1 { "" } else { "s" };
    write!(out, "{name} of {count} {unit}{plural} (")
}

// An array with items of a type.
fn write_array(
    out: &mut String,
    name: &str,
    is_described: bool,
    count: usize,
) -> Result<(), AllocError> {
    let prefix = if is_described { "described " } else { "" };
    let plural = if count == 1 { "" } else { "s" };
    write!(out, "array of {count} {prefix}{name}{plural} (")
}
