//! Blocks in the page for a browser (HTML): each is an element with its bytes and its line of JSON. The page's script shows the bytes beside the
//! values.
use amqp_faults::write_digits;
use std::alloc::AllocError;

/// Appends a block: its bytes in hexadecimal digits, and its object of JSON.
pub fn write_element(out: &mut String, bytes: &[u8], json: &str) -> Result<(), AllocError> {
    out.push_str("<script type=\"application/json\" class=\"block\" data-bytes=\"")?;
    write_digits(out, bytes)?;
    out.push_str("\">")?;
    write_json(out, json)?;
    out.push_str("</script>\n")
}

// Appends JSON. Only its strings can have a `<`, which could end the element: an escape takes its place (RFC 8259, section 7).
fn write_json(out: &mut String, json: &str) -> Result<(), AllocError> {
    for c in json.chars() {
        match c {
            '<' => out.push_str("\\u003c")?,
            other => out.push(other)?,
        }
    }
    Ok(())
}
