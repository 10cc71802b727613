//! The program `amqp_no_memory_values` makes each call that allocates over values that aren't composites, while one allocation fails
//! (`amqp_no_memory_calls`).
#![tactic(auto)]

mod copies;
mod growing;
mod made;
mod readers;

use amqp_no_memory_calls::{ask_for_growths, status};
use std::process::ExitCode;

fn main(rt: HostRuntime) -> Result<ExitCode, anyhow::Error> {
    ask_for_growths(&rt)?;
    let mut well = readers::check_all(&rt)?;
    well &= growing::check_all(&rt)?;
    well &= made::check_all(&rt)?;
    well &= copies::check_all(&rt)?;
    Ok(status(well))
}
