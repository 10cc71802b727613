//! The program `amqp_no_memory` reads, measures and writes whole values, and answers lines, while one allocation fails
//! (`amqp_no_memory_calls`).
#![tactic(auto)]

mod inputs;
mod lines;
mod rows;
mod without;

use amqp_no_memory_calls::{ask_for_growths, status};
use std::process::ExitCode;

fn main(rt: HostRuntime) -> Result<ExitCode, anyhow::Error> {
    ask_for_growths(&rt)?;
    let mut well = rows::check_all(&rt)?;
    well &= without::check_all(&rt)?;
    well &= lines::check_all(&rt)?;
    Ok(status(well))
}
