//! Blocks as text.
use crate::entry_text::{write_entries, write_span};
use crate::part::Part;
use amqp_blocks::{Block, Span, Subject};
use amqp_descriptors::name_of;
use amqp_faults::{Fault, write_digits};
use amqp_frames::{FrameKind, ProtocolHeader, ProtocolId};
use amqp_inspect_io::Colours;
use amqp_outlines::{Entry, Shape};
use std::alloc::AllocError;
use std::fmt::Write;

/// How many bytes before a fault are printed, and how many from it on.
const AROUND: usize = 8;

/// Appends a block as lines.
pub(crate) fn write_block(
    out: &mut String,
    part: Part<'_>,
    block: &Block,
) -> Result<(), AllocError> {
    let entries = block.value.as_slice();
    let span = (0, block.len);
    match block.subject {
        Subject::Term | Subject::Section => write_entries(out, part, entries, 0)?,
        Subject::Frame(kind) => write_frame(out, part, block, kind)?,
        Subject::ProtocolHeader(header) => write_header(out, part, span, header)?,
        Subject::NoFrame => write_line(out, part, "no frame", span)?,
        Subject::CutFrame => {
            write_line(out, part, "cut frame", span)?;
            write_entries(out, part, entries, 1)?;
        }
        Subject::Rest => write_line(out, part, "rest", span)?,
    }
    for fault in block.faults.iter() {
        write_fault(out, part, fault)?;
    }
    Ok(())
}

// A line of a span.
fn write_line(out: &mut String, part: Part<'_>, name: &str, span: Span) -> Result<(), AllocError> {
    write_heading(out, part, name)?;
    write_span(out, part, span)?;
    out.push('\n')
}

// What begins a line that others belong to.
fn write_heading(out: &mut String, part: Part<'_>, name: &str) -> Result<(), AllocError> {
    let colours = part.colours;
    write!(out, "{}{name}{}: ", colours.heading, colours.end)
}

fn write_header(
    out: &mut String,
    part: Part<'_>,
    span: Span,
    header: ProtocolHeader,
) -> Result<(), AllocError> {
    write_heading(out, part, "protocol header")?;
    write_span(out, part, span)?;
    let (major, minor, revision) = (header.major, header.minor, header.revision);
    let ProtocolId(id) = header.id;
    let name = protocol_name(header.id);
    writeln!(out, ", {name} ({id}), version {major}.{minor}.{revision}")
}

// The name of the protocol that a protocol header asks for.
fn protocol_name(id: ProtocolId) -> &'static str {
    if id == ProtocolId::AMQP {
        "AMQP"
    } else if id == ProtocolId::TLS {
        "TLS"
    } else if id == ProtocolId::SASL {
        "SASL"
    } else {
        "unknown protocol"
    }
}

// A frame. Its first line has the name of its performative, if it has one, and the performative's fields come next.
fn write_frame(
    out: &mut String,
    part: Part<'_>,
    block: &Block,
    kind: FrameKind,
) -> Result<(), AllocError> {
    write_heading(out, part, "frame")?;
    write_span(out, part, (0, block.len))?;
    match kind {
        FrameKind::Amqp { channel } => write!(out, ", channel {channel}")?,
        FrameKind::Sasl => out.push_str(", SASL")?,
    }
    let (name, entries, shift) = headed(block);
    let colours = part.colours;
    writeln!(out, ", {}{name}{}", colours.heading, colours.end)?;
    if let Some(extended) = block.extended {
        write_line(out, part, "  extended header", extended)?;
    }
    write_entries(out, part, entries, shift)?;
    if let Some(payload) = block.payload {
        write_line(out, part, "  payload", payload)?;
    }
    write_entries(out, part, block.message.as_slice(), 2)
}

// The name of what a frame has, the entries below it, and how much deeper they are printed than they are.
fn headed(block: &Block) -> (&'static str, &[Entry], usize) {
    let entries = block.value.as_slice();
    let Some((first, below)) = entries.split_first() else {
        let name = if block.faults.is_empty() {
            "empty"
        } else {
            "no value"
        };
        return (name, entries, 1);
    };
    match first.shape {
        Shape::Named(named, _) => (name_of(named), below, 0),
        _ => ("a value of no type", entries, 1),
    }
}

// A fault: the sentence, the path, and the bytes around the place.
fn write_fault(out: &mut String, part: Part<'_>, fault: &Fault) -> Result<(), AllocError> {
    let Colours {
        fault: red,
        end,
        ..
    } = part.colours;
    let cause = fault.cause;
    let at = part.place(fault.at);
    writeln!(
        out,
        "  {red}fault: {cause} at byte {at} ({}){end}",
        cause.name()
    )?;
    if !fault.path.is_empty() {
        writeln!(out, "    path: {}", fault.path)?;
    }
    write_around(out, part, fault.at)
}

// The bytes around a place, and below them a mark under the byte at the place.
fn write_around(out: &mut String, part: Part<'_>, at: usize) -> Result<(), AllocError> {
    let from = at.saturating_sub(AROUND);
    let to = at.saturating_add(AROUND).min(part.bytes.len());
    let before = out.len();
    write!(out, "    byte {}:", part.place(from))?;
    let margin = out.len().saturating_sub(before);
    for byte in part.bytes.get(from..to).unwrap_or_default() {
        out.push(' ')?;
        write_digits(out, &[*byte])?;
    }
    out.push('\n')?;
    let columns = at.saturating_sub(from).saturating_mul(3);
    for _ in 0..margin.saturating_add(columns).saturating_add(1) {
        out.push(' ')?;
    }
    writeln!(out, "{}^^{}", part.colours.fault, part.colours.end)
}
