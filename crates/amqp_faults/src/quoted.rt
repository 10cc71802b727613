//! Text in quotes, with escapes for what can't be seen.
use std::alloc::AllocError;
use std::fmt::Write;

// Whether a character is not printed as it is: a control character, or one that changes the direction or the order of what is shown.
fn is_hidden(c: char) -> bool {
    matches!(
        u32::from(c),
        0..=0x1f | 0x7f..=0x9f | 0xad | 0x200b..=0x200f | 0x2028..=0x202e | 0x2060..=0x206f | 0xfeff
    )
}

/// Appends a text in quotes, as Rust writes it.
pub fn write_quoted(out: &mut String, text: &str) -> Result<(), AllocError> {
    out.push('"')?;
    for c in text.chars() {
        match c {
            '"' => out.push_str("\\\"")?,
            '\\' => out.push_str("\\\\")?,
            '\n' => out.push_str("\\n")?,
            '\r' => out.push_str("\\r")?,
            '\t' => out.push_str("\\t")?,
            hidden if is_hidden(hidden) => write!(out, "\\u{{{:x}}}", u32::from(hidden))?,
            shown => out.push(shown)?,
        }
    }
    out.push('"')?;
    Ok(())
}

/// Appends bytes in hexadecimal digits.
pub fn write_digits(out: &mut String, bytes: &[u8]) -> Result<(), AllocError> {
    for byte in bytes {
        write!(out, "{byte:02x}")?;
    }
    Ok(())
}
