//! The program `amqp_no_memory_messages` makes each call that allocates over messages, their bodies and their sections, while one
//! allocation fails (`amqp_no_memory_calls`).
#![tactic(auto)]

mod annotations;
mod bodies;
mod copies;
mod made;
mod readers;
mod transposed;

use amqp_no_memory_calls::{ask_for_growths, status};
use std::process::ExitCode;

fn main(rt: HostRuntime) -> Result<ExitCode, anyhow::Error> {
    ask_for_growths(&rt)?;
    let mut well = readers::check_all(&rt)?;
    well &= bodies::check_all(&rt)?;
    well &= transposed::check_all(&rt)?;
    well &= made::check_all(&rt)?;
    well &= annotations::check_all(&rt)?;
    well &= copies::check_all(&rt)?;
    Ok(status(well))
}
