//! Primitive values as they are printed (Part 1, section 1.6).
use crate::quoted::{write_digits, write_quoted};
use amqp_descriptors::{character, is_true, signed, unsigned};
use amqp_kinds::Kind;
use amqp_nodes::Node;
use std::alloc::AllocError;
use std::fmt::Write;
use std::str;

/// The most bytes of a binary that are printed.
const MOST_BYTES: usize = 32;

/// Appends a primitive value of this kind.
pub fn write_value(
    out: &mut String,
    input: &[u8],
    kind: Kind,
    node: &Node,
) -> Result<(), AllocError> {
    let bytes = input.get(node.start..node.end).unwrap_or_default();
    match kind {
        Kind::Null => out.push_str("null"),
        Kind::Bool if is_true(node.code, bytes) => out.push_str("true"),
        Kind::Bool => out.push_str("false"),
        Kind::Ubyte | Kind::Ushort | Kind::Uint | Kind::Ulong => {
            write!(out, "{}", unsigned(bytes))
        }
        Kind::Byte | Kind::Short | Kind::Int | Kind::Long | Kind::Timestamp => {
            write!(out, "{}", signed(bytes))
        }
        Kind::Char => write_char(out, bytes),
        Kind::Uuid => write_uuid(out, bytes),
        Kind::String | Kind::Symbol => write_text(out, bytes),
        Kind::Binary => write_binary(out, bytes),
        _ => write_bytes(out, bytes),
    }
}

// A character in quotes, and its number.
fn write_char(out: &mut String, bytes: &[u8]) -> Result<(), AllocError> {
    let Some(c) = character(bytes) else {
        return write_bytes(out, bytes);
    };
    let mut room = [0u8; 4];
    write_quoted(out, c.encode_utf8(&mut room))?;
    write!(out, " U+{:04X}", u32::from(c))
}

/// Appends a UUID in its five groups of digits, without quotes (RFC 4122, section 3).
pub fn write_uuid(out: &mut String, bytes: &[u8]) -> Result<(), AllocError> {
    for (index, byte) in bytes.iter().enumerate() {
        if matches!(index, 4 | 6 | 8 | 10) {
            out.push('-')?;
        }
        write!(out, "{byte:02x}")?;
    }
    Ok(())
}

// A string or a symbol.
fn write_text(out: &mut String, bytes: &[u8]) -> Result<(), AllocError> {
    match str::from_utf8(bytes) {
        Ok(text) => write_quoted(out, text),
        Err(_) => write_bytes(out, bytes),
    }
}

// A binary: as text if its bytes are ASCII that can be printed, else in digits.
fn write_binary(out: &mut String, bytes: &[u8]) -> Result<(), AllocError> {
    if !bytes.iter().all(|byte| matches!(*byte, 0x20..=0x7e)) {
        return write_bytes(out, bytes);
    }
    let shown = bytes.get(..MOST_BYTES).unwrap_or(bytes);
    write_text(out, shown)?;
    write_cut(out, bytes.len())
}

// Bytes in digits.
fn write_bytes(out: &mut String, bytes: &[u8]) -> Result<(), AllocError> {
    let shown = bytes.get(..MOST_BYTES).unwrap_or(bytes);
    out.push_str("0x")?;
    write_digits(out, shown)?;
    write_cut(out, bytes.len())
}

// How many bytes there are in all, if not all of them are printed.
fn write_cut(out: &mut String, len: usize) -> Result<(), AllocError> {
    if len > MOST_BYTES {
        write!(out, ".. of {len} bytes")?;
    }
    Ok(())
}
