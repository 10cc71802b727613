//! The program `amqp_no_memory_frames` makes each call that allocates over frames, while one allocation fails (`amqp_no_memory_calls`).
#![tactic(auto)]

mod bodies;
mod deliveries;
mod writing;

use amqp_no_memory_calls::{ask_for_growths, status};
use std::process::ExitCode;

fn main(rt: HostRuntime) -> Result<ExitCode, anyhow::Error> {
    ask_for_growths(&rt)?;
    let mut well = bodies::check_all(&rt)?;
    well &= writing::check_all(&rt)?;
    well &= deliveries::check_all(&rt)?;
    Ok(status(well))
}
