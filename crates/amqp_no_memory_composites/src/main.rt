//! The program `amqp_no_memory_composites` makes each call that allocates over composites, while one allocation fails
//! (`amqp_no_memory_calls`).
#![tactic(auto)]

mod builders;
mod copies;
mod errors;
mod lifetimes;
mod modes;

use amqp_no_memory_calls::{ask_for_growths, status};
use std::process::ExitCode;

fn main(rt: HostRuntime) -> Result<ExitCode, anyhow::Error> {
    ask_for_growths(&rt)?;
    let mut well = errors::check_all(&rt)?;
    well &= lifetimes::check_all(&rt)?;
    well &= modes::check_all(&rt)?;
    well &= builders::check_all(&rt)?;
    well &= copies::check_all(&rt)?;
    Ok(status(well))
}
