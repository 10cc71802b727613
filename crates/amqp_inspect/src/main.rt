//! The program `amqp_inspect` tells what bytes of AMQP 1.0 are: the frames of one direction of a connection, a message, or a term of any
//! type. Each value is printed with its type and its place, and the fields of the standard's types with their names. A fault is printed with
//! its place, the path to it, and the bytes around it. The options are in `amqp_inspect_io`.
//!
//! The status is 0 if all is well, 1 if there is a fault, and 2 if the arguments are wrong.
#![tactic(auto)]

mod entry_text;
mod json;
mod json_entries;
mod part;
mod printer;
mod text;

use amqp_blocks::Source;
use amqp_descriptors::names;
use amqp_inspect_io::{Arguments, Input, PIECE, command};
use printer::Printer;
use std::env;
use std::process::ExitCode;

fn main(rt: HostRuntime) -> Result<ExitCode, anyhow::Error> {
    let words: Vec<String> = env::args(&rt)?.collect(rt.alloc())?;
    let names = names(rt.alloc())?;
    let command = command(names.as_slice(), rt.alloc())?;
    let matches = match command.try_get_matches_from(words.as_slice()) {
        Ok(matches) => matches,
        Err(error) => {
            error.print(&rt)?;
            return Ok(ExitCode::from(error.exit_code() as u8));
        }
    };
    let arguments = Arguments::new(&matches)?;
    if inspect(&rt, &arguments)? {
        Ok(ExitCode::SUCCESS)
    } else {
        Ok(ExitCode::FAILURE)
    }
}

// Prints the blocks of the input, and returns whether none has a fault.
fn inspect(rt: &HostRuntime, arguments: &Arguments) -> Result<bool, anyhow::Error> {
    let mut reader = rt.reader();
    let mut piece = vec![in rt.alloc(); 0u8; PIECE]?;
    let mut input = Input::new(arguments.hex, rt.alloc());
    let mut printer = Printer::new(rt, arguments.answer);
    let mut source = None;
    printer.begin(rt)?;
    for _ in 0..u64::MAX {
        if source.is_none() {
            source = Source::new(&arguments.options, input.rest(), input.is_end(), rt.alloc())?;
        }
        if let Some(source) = &mut source {
            printer.print(rt, source, &mut input)?;
        }
        if input.is_end() {
            break;
        }
        input.fill(&mut reader, piece.as_mut_slice())?;
    }
    printer.end(rt)?;
    Ok(printer.all_is_well())
}
