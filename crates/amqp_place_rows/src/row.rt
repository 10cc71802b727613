//! Rows, and lines that set limits.
use anyhow::bail;
use fe2o3_amqp_types::codec::Limits;
use std::alloc::Global;

/// A type, bytes that it refuses, and the fault that must be found.
#[derive(Drop)]
pub(crate) struct Row<'a> {
    pub type_name: &'a str,
    pub input: Vec<u8>,
    pub wanted: &'a str,
}

impl<'a> Row<'a> {
    /// Reads a line `<type> <digits> => <error> <place>` of the file. A line of another form is an error.
    pub(crate) fn from_line(
        file: &str,
        line: &'a str,
        alloc: Global,
    ) -> Result<Row<'a>, anyhow::Error> {
        let Some((request, wanted)) = line.split_once(" => ") else {
            bail!("{file}: {line} has no arrow")
        };
        let Some((type_name, digits)) = request.split_once(' ') else {
            bail!("{file}: {line} has no type")
        };
        Ok(Row {
            type_name,
            input: bytes_of(digits, alloc)?,
            wanted,
        })
    }
}

// The bytes that the digits stand for, none of `-`.
fn bytes_of(digits: &str, alloc: Global) -> Result<Vec<u8>, anyhow::Error> {
    if digits == "-" {
        return Ok(Vec::new(alloc));
    }
    Ok(hex::decode(alloc, digits)?)
}

/// Returns the limits that a line `limits <nesting> <bytes> <items>` or `limits none` of the file sets, of which these are the words after
/// the first. Other words are an error.
pub(crate) fn limits_of(file: &str, numbers: &str) -> Result<Limits, anyhow::Error> {
    if numbers == "none" {
        return Ok(Limits::greatest());
    }
    match numbered(numbers) {
        Some(limits) => Ok(limits),
        None => bail!("{file}: {numbers} are no limits"),
    }
}

// The limits of three numbers.
fn numbered(numbers: &str) -> Option<Limits> {
    let (nesting, others) = numbers.split_once(' ')?;
    let (bytes, items) = others.split_once(' ')?;
    Limits::new(
        nesting.parse::<u32>().ok()?,
        bytes.parse::<u64>().ok()?,
        items.parse::<u64>().ok()?,
    )
}
