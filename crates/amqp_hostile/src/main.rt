//! The program `amqp_hostile` makes inputs as a hostile peer might send them, and checks what each comes to. It cuts off the end of some
//! values and messages at each place, and puts each of the 256 bytes in each place. It prints how many inputs it made and what they came
//! to, and each that came to something else. The status is 0 if there is none of these, else 1.
#![tactic(auto)]

mod fronts;
mod inputs;
mod noise;

use std::process::ExitCode;

fn main(rt: HostRuntime) -> Result<ExitCode, anyhow::Error> {
    let are_cut = fronts::check_all(&rt)?;
    let are_stable = noise::check_all(&rt)?;
    if are_cut && are_stable {
        Ok(ExitCode::SUCCESS)
    } else {
        Ok(ExitCode::FAILURE)
    }
}
