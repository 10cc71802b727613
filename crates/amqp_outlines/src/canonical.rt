//! Shorter encodings of what isn't canonical: the canonical encoding of a value is its shortest one (Part 1, section 1.6).
use crate::entry::{Entry, Shape};
use amqp_descriptors::{code_of_descriptor, signed, unsigned};
use amqp_nodes::{Node, next_node};
use amqp_wire::format_code;

/// The first bytes of a canonical encoding: a code, and the data, the size or the count behind it.
#[derive(Clone, Copy)]
pub enum Head {
    /// A code alone.
    One(u8),
    /// A code, and one byte of data or of a size.
    Two(u8, u8),
    /// A code, a size and a count.
    Three(u8, u8, u8),
}

impl Head {
    // How many bytes it has.
    fn len(&self) -> usize {
        match self {
            Head::One(_) => 1,
            Head::Two(_, _) => 2,
            Head::Three(_, _, _) => 3,
        }
    }
}

/// An encoding that isn't canonical: the bytes from one place to another, and the canonical ones.
#[derive(Clone, Copy)]
pub struct Longer {
    /// Where it begins.
    pub from: usize,
    /// Where it ends.
    pub to: usize,
    /// The canonical bytes in its place.
    pub canonical: Head,
}

impl Longer {
    /// How many bytes the canonical encoding has less.
    pub fn saving(&self) -> usize {
        let len = self.to.saturating_sub(self.from);
        len.saturating_sub(self.canonical.len())
    }
}

/// Returns how many bytes fewer the canonical encodings of these values have.
pub fn saving_of(input: &[u8], entries: &[Entry]) -> usize {
    let mut saving = 0usize;
    for entry in entries {
        if let Some(descriptor) = longer_descriptor(input, entry) {
            saving = saving.saturating_add(descriptor.saving());
        }
        if let Some(head) = longer_head(input, entry) {
            saving = saving.saturating_add(head.saving());
        }
    }
    saving
}

/// Returns the descriptor of a value of a type of the standard, if it isn't canonical: the number of the type in one byte (Part 1,
/// section 1.5).
pub fn longer_descriptor(input: &[u8], entry: &Entry) -> Option<Longer> {
    let Shape::Named(_, _) = entry.shape else {
        return None;
    };
    let from = entry.from.saturating_add(1);
    let descriptor = next_node(input, from, &Node::NOTHING).ok()?;
    let code = u8::try_from(code_of_descriptor(input, &descriptor)?).ok()?;
    if descriptor.code == format_code::SMALL_ULONG {
        return None;
    }
    Some(Longer {
        from,
        to: descriptor.end,
        canonical: Head::Two(format_code::SMALL_ULONG, code),
    })
}

/// Returns the first bytes of a value, if they aren't canonical: its code, with its number, its size or its count.
pub fn longer_head(input: &[u8], entry: &Entry) -> Option<Longer> {
    let node = entry.node;
    if !entry.is_whole || !entry.has_code {
        return None;
    }
    let from = node.start.saturating_sub(head_len(node.code));
    let data = input.get(node.start..node.end)?;
    if let Some(canonical) = whole_head(&node, data) {
        return Some(Longer {
            from,
            to: node.end,
            canonical,
        });
    }
    Some(Longer {
        from,
        to: node.start,
        canonical: narrow_head(&node, data)?,
    })
}

// How many bytes a value of this code has up to its content: the code, a size, and a count (Part 1, section 1.2).
fn head_len(code: u8) -> usize {
    match code {
        0xa0..=0xaf => 2,
        0xb0..=0xbf => 5,
        0xc0..=0xcf | 0xe0..=0xef => 3,
        0xd0..=0xdf | 0xf0..=0xff => 9,
        _ => 1,
    }
}

// The shorter encoding of a number, a boolean or an empty list, if there is one.
fn whole_head(node: &Node, data: &[u8]) -> Option<Head> {
    match node.code {
        format_code::BOOLEAN if data == [1].as_slice() => Some(Head::One(
            format_code::BOOLEAN_TRUE,
        )),
        format_code::BOOLEAN => Some(Head::One(format_code::BOOLEAN_FALSE)),
        format_code::SMALL_UINT | format_code::UINT => {
            unsigned_head(data, format_code::UINT_0, format_code::SMALL_UINT)
        }
        format_code::SMALL_ULONG | format_code::ULONG => {
            unsigned_head(data, format_code::ULONG_0, format_code::SMALL_ULONG)
        }
        format_code::INT => signed_head(data, format_code::SMALL_INT),
        format_code::LONG => signed_head(data, format_code::SMALL_LONG),
        format_code::LIST_8 | format_code::LIST_32 if node.count == 0 => {
            Some(Head::One(format_code::LIST_0))
        }
        _ => None,
    }
}

// A number with no byte if it is 0, and else with one byte, if that is shorter (Part 1, sections 1.6.5 and 1.6.6).
fn unsigned_head(data: &[u8], zero: u8, small: u8) -> Option<Head> {
    match u8::try_from(unsigned(data)) {
        Ok(0) => Some(Head::One(zero)),
        Ok(number) if data.len() > 1 => Some(Head::Two(small, number)),
        _ => None,
    }
}

// A number with one byte, if it fits (Part 1, sections 1.6.9 and 1.6.10).
fn signed_head(data: &[u8], small: u8) -> Option<Head> {
    let number = i8::try_from(signed(data)).ok()?;
    let [byte] = number.to_be_bytes();
    Some(Head::Two(small, byte))
}

// The code with sizes of one byte, if the value has a wider one and fits (Part 1, section 1.2). In a container, the count belongs to the
// size.
fn narrow_head(node: &Node, content: &[u8]) -> Option<Head> {
    let code = match node.code {
        format_code::BINARY_32 => format_code::BINARY_8,
        format_code::STRING_32 => format_code::STRING_8,
        format_code::SYMBOL_32 => format_code::SYMBOL_8,
        format_code::LIST_32 => format_code::LIST_8,
        format_code::MAP_32 => format_code::MAP_8,
        format_code::ARRAY_32 => format_code::ARRAY_8,
        _ => return None,
    };
    if code < format_code::LIST_8 {
        return Some(Head::Two(code, u8::try_from(content.len()).ok()?));
    }
    let size = u8::try_from(content.len().saturating_add(1)).ok()?;
    Some(Head::Three(code, size, u8::try_from(node.count).ok()?))
}
