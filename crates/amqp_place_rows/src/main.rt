//! The program `amqp_place_rows` checks where faults stand; its arguments name files of rows. A row is a line `<type> <digits> => <error>
//! <place>`, as `uint 5000 => WrongType 0`: what a type refuses, in hexadecimal digits (`-` for no bytes), the name of the error, and how
//! many bytes are before what is at fault. The bytes are read from a slice, and from a reader that gives one byte a call.
//!
//! A line `limits <nesting> <bytes> <items>` sets the limits of the rows after it, and a line `limits none` ends them. Empty lines and lines
//! that begin with `#` are ignored.
//!
//! It prints each row of which another error or another place was found, and how many rows each file has. The status is 0 if all rows
//! agree, else 1.
#![tactic(auto)]

mod answer;
mod one_by_one;
mod row;
mod types;

use fe2o3_amqp_types::codec::Limits;
use row::{Row, limits_of};
use std::process::ExitCode;
use std::{env, fs};
use types::answer_of;

fn main(rt: HostRuntime) -> Result<ExitCode, anyhow::Error> {
    let mut all_agree = true;
    for file in env::args(&rt)?.skip(1) {
        all_agree &= check_file(&rt, file.as_str())?;
    }
    if all_agree {
        Ok(ExitCode::SUCCESS)
    } else {
        Ok(ExitCode::FAILURE)
    }
}

// Whether all rows of a file agree. Those that don't are printed, and then how many rows there are.
fn check_file(rt: &HostRuntime, file: &str) -> Result<bool, anyhow::Error> {
    let text = fs::read_to_string(rt, file)?;
    let mut limits = Limits::greatest();
    let mut rows = 0u64;
    let mut all_agree = true;
    for line in text.lines() {
        if is_ignored(line) {
            continue;
        }
        match line.strip_prefix("limits ") {
            Some(numbers) => limits = limits_of(file, numbers)?,
            None => {
                rows = rows.saturating_add(1);
                all_agree &= check_row(rt, file, line, &limits)?;
            }
        }
    }
    println!(rt; "{file}: {rows} rows")?;
    Ok(all_agree)
}

// Whether a line is empty or a comment.
fn is_ignored(line: &str) -> bool {
    line.is_empty() || line.starts_with('#')
}

// Whether a row agrees. One that doesn't is printed.
fn check_row(
    rt: &HostRuntime,
    file: &str,
    line: &str,
    limits: &Limits,
) -> Result<bool, anyhow::Error> {
    let row = Row::from_line(file, line, rt.alloc())?;
    let Some(answer) = answer_of(row.type_name, row.input.as_slice(), limits, rt.alloc()) else {
        println!(rt; "{file}: {line} is of no type")?;
        return Ok(false);
    };
    let found = answer.printed(rt.alloc())?;
    if found.as_str() == row.wanted {
        return Ok(true);
    }
    println!(rt; "{file}: {line} is answered by {found}")?;
    Ok(false)
}
