//! Rows, and the answers to their lines.
use crate::further::further_answer;
use amqp_lines::run;
use anyhow::bail;
use fe2o3_amqp_types::codec::Error;
use std::alloc::Global;

/// A line, and the answer that it must have.
#[derive(Drop)]
pub(crate) struct Row<'a> {
    pub request: &'a str,
    pub wanted: &'a str,
}

impl<'a> Row<'a> {
    /// Reads a line `<line> => <answer>` of the file. A line without an arrow is an error.
    pub(crate) fn from_line(file: &str, line: &'a str) -> Result<Row<'a>, anyhow::Error> {
        let Some((request, wanted)) = line.split_once(" => ") else {
            bail!("{file}: {line} is no row")
        };
        Ok(Row { request, wanted })
    }
}

/// Returns the answers to the rows' lines in one run, line by line.
pub(crate) fn answers_to(rows: &[Row<'_>], alloc: Global) -> Result<String, anyhow::Error> {
    let mut input = String::new(alloc);
    for row in rows {
        input.push_str(row.request)?;
        input.push('\n')?;
    }
    let mut output = Vec::new(alloc);
    run(input.as_bytes(), &mut output, alloc)?;
    Ok(String::from_utf8(output)?)
}

/// Returns the answer to a line that names a further type, without a line feed, or `None` for other lines.
pub(crate) fn answer_of_further(request: &str, alloc: Global) -> Result<Option<String>, Error> {
    let Some((type_name, digits)) = request.split_once(' ') else {
        return Ok(None);
    };
    match from_digits(digits, alloc)? {
        Some(input) => further_answer(type_name, input.as_slice(), alloc),
        None => Ok(None),
    }
}

// The bytes that the digits stand for, none of `-`, or `None` of other texts.
fn from_digits(digits: &str, alloc: Global) -> Result<Option<Vec<u8>>, Error> {
    if digits == "-" {
        return Ok(Some(Vec::new(alloc)));
    }
    match hex::decode(alloc, digits) {
        Ok(bytes) => Ok(Some(bytes)),
        Err(hex::FromHexError::OutOfMemory) => Err(Error::Memory),
        Err(_) => Ok(None),
    }
}
