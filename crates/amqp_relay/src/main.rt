//! The program `amqp_relay` reads what one side of an AMQP connection sends from standard input, and writes it to standard output with each
//! frame in canonical text. An argument gives the most bytes of a frame that it takes and writes; without one, these are 65,536.
//!
//! Protocol headers are written as they are. A message that one transfer carries is written in canonical text, too, if it is a strict one
//! (Part 3, section 3.2). One that several transfers carry is written as it is, so that each transfer remains one: the peers count them
//! (Part 2, section 2.5.6). The transfers of each link are joined to deliveries, and it is counted how many messages can be read.
//!
//! What has come is written before more is awaited, so a program can relay a connection through two of these. At the end of the input it
//! prints what it counted to standard error. The status is 0 if the input is whole frames, else 1: then it prints the place of the fault in
//! the input and the condition that the sender would be told.
#![tactic(auto)]

mod bodies;
mod counts;
mod direction;
mod fault;
mod frames;
mod limits;
mod links;
mod message;

use direction::Direction;
use fault::Fault;
use std::io::{Read, Write};
use std::process::ExitCode;
use std::{env, io};

const MAX_FRAME_SIZE: u32 = 65_536;

fn main(rt: HostRuntime) -> Result<ExitCode, anyhow::Error> {
    let mut direction = Direction::new(max_frame_size(&rt)?, rt.alloc());
    let relayed = relay(&rt, &mut direction)?;
    eprintln!(rt; "{}", direction.frames.counts)?;
    drop(direction);
    match relayed {
        Ok(()) => Ok(ExitCode::SUCCESS),
        Err(fault) => {
            eprintln!(rt; "{fault}")?;
            Ok(ExitCode::FAILURE)
        }
    }
}

// The most bytes of a frame.
fn max_frame_size(rt: &HostRuntime) -> Result<u32, anyhow::Error> {
    match env::args(rt)?.nth(1) {
        Some(argument) => Ok(argument.as_str().parse()?),
        None => Ok(MAX_FRAME_SIZE),
    }
}

// Relays the whole input. What is written before a fault is whole frames.
fn relay(rt: &HostRuntime, direction: &mut Direction) -> Result<Result<(), Fault>, anyhow::Error> {
    let mut reader = rt.reader();
    let mut writer = io::writer(rt);
    let mut chunk = [0u8; 8192];
    let mut output = Vec::new(rt.alloc());
    for _ in 0..u64::MAX {
        let count = reader.read(&mut chunk)?;
        if count == 0 {
            break;
        }
        let taken = direction.take(&chunk[..count], &mut output, rt.alloc());
        writer.write_all(output.as_slice())?;
        output.clear();
        if let Err(fault) = taken {
            return Ok(Err(fault));
        }
    }
    Ok(direction.end())
}
