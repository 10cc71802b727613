//! The program `amqp_bench` measures the time of writing and reading, in nanoseconds a value. With the argument `run` it measures every
//! case, and compares types with the bare calls for the same bytes. With `writing` or `reading`, a case's word and a number, it does so
//! many rounds of that case, for a profiler. Otherwise it prints nothing.
#![tactic(auto)]

mod bare;
mod cases;
mod framed;
mod frames;
mod values;

use cases::{CASES, COMPARED, Case, WAYS, Way};
use std::env;

const ROUNDS: u32 = 20;

fn main(rt: HostRuntime) -> Result<(), anyhow::Error> {
    let mut arguments = Vec::new(rt.alloc());
    for argument in env::args(&rt)?.skip(1) {
        arguments.push(argument)?;
    }
    if let [what] = arguments.as_slice()
        && what.as_str() == "run"
    {
        print_all(&rt)?;
    }
    if let [what, word, rounds] = arguments.as_slice() {
        print_one(&rt, what.as_str(), word.as_str(), rounds.as_str())?;
    }
    Ok(())
}

fn print_all(rt: &HostRuntime) -> Result<(), anyhow::Error> {
    for way in WAYS {
        for case in CASES {
            print_case(rt, way, case, ROUNDS)?;
        }
        for (case, bare) in COMPARED {
            print_ratio(rt, way, case, bare)?;
        }
    }
    Ok(())
}

fn print_one(rt: &HostRuntime, what: &str, word: &str, rounds: &str) -> Result<(), anyhow::Error> {
    let rounds = rounds.parse()?;
    for way in WAYS {
        for case in CASES {
            if way.word() == what && case.word() == word {
                print_case(rt, way, case, rounds)?;
            }
        }
    }
    Ok(())
}

// In tenths of a nanosecond a value.
fn print_case(rt: &HostRuntime, way: Way, case: Case, rounds: u32) -> Result<(), anyhow::Error> {
    let values = (case.values() as u128) * (case.times() as u128);
    let tenths = case.best(rt, way, rounds)?.saturating_mul(10) / values.max(1);
    println!(rt;
        "{} {}: {}.{} ns a value",
        way.word(),
        case.name(),
        tenths / 10,
        tenths % 10
    )?;
    Ok(())
}

// In hundredths.
fn print_ratio(rt: &HostRuntime, way: Way, case: Case, other: Case) -> Result<(), anyhow::Error> {
    let taken = case.best(rt, way, ROUNDS)?.saturating_mul(100);
    let hundredths = taken / other.best(rt, way, ROUNDS)?.max(1);
    println!(rt;
        "{} {}: {}.{:02} times {}",
        way.word(),
        case.name(),
        hundredths / 100,
        hundredths % 100,
        other.name()
    )?;
    Ok(())
}
