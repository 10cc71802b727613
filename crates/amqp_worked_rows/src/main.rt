//! The program `amqp_worked_rows` checks worked rows; its arguments name files of them. A row is a line `<line> => <answer>`, as
//! `released 005326c00000 => ok 00532645 0`. Before the arrow is a line for the program `amqp_canon`, and after it the answer to that line
//! (`amqp_lines::run`).
//!
//! The rows of a file are lines of one run, so limits that a row sets are those of the rows after it. Rows of types that the program
//! doesn't name are answered apart, without limits. Empty lines and lines that begin with `#` are ignored.
//!
//! It prints each row that has another answer, and how many rows each file has. The status is 0 if all rows agree, else 1.
#![tactic(auto)]

mod answer;
mod further;

use answer::{Row, answer_of_further, answers_to};
use std::process::ExitCode;
use std::{env, fs};

fn main(rt: HostRuntime) -> Result<ExitCode, anyhow::Error> {
    let mut all_agree = true;
    for file in env::args(&rt)?.skip(1) {
        all_agree &= check_file(&rt, file.as_str())?;
    }
    if all_agree {
        Ok(ExitCode::SUCCESS)
    } else {
        Ok(ExitCode::FAILURE)
    }
}

// Whether all rows of a file agree. Those that don't are printed, and then how many rows there are.
fn check_file(rt: &HostRuntime, file: &str) -> Result<bool, anyhow::Error> {
    let text = fs::read_to_string(rt, file)?;
    let mut rows = 0u64;
    let mut all_agree = true;
    let mut lines = Vec::new(rt.alloc());
    for line in text.lines() {
        if is_row(line) {
            rows = rows.saturating_add(1);
            let row = Row::from_line(file, line)?;
            match answer_of_further(row.request, rt.alloc())? {
                Some(found) => all_agree &= check_row(rt, file, &row, found.as_str())?,
                None => lines.push(row)?,
            }
        }
    }
    all_agree &= check_lines(rt, file, lines.as_slice())?;
    println!(rt; "{file}: {rows} rows")?;
    Ok(all_agree)
}

// Whether the rows agree as the lines of one run.
fn check_lines(rt: &HostRuntime, file: &str, rows: &[Row<'_>]) -> Result<bool, anyhow::Error> {
    let answers = answers_to(rows, rt.alloc())?;
    let mut all_agree = answers.lines().count() == rows.len();
    for (row, found) in rows.iter().zip(answers.lines()) {
        all_agree &= check_row(rt, file, row, found)?;
    }
    Ok(all_agree)
}

// Whether a line is a row, and no comment.
fn is_row(line: &str) -> bool {
    !line.is_empty() && !line.starts_with('#')
}

// Whether a row agrees. One that doesn't is printed.
fn check_row(
    rt: &HostRuntime,
    file: &str,
    row: &Row<'_>,
    found: &str,
) -> Result<bool, anyhow::Error> {
    if found == row.wanted {
        return Ok(true);
    }
    let request = row.request;
    let wanted = row.wanted;
    println!(rt; "{file}: {request} => {wanted} is answered by {found}")?;
    Ok(false)
}
