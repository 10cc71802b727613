//! Lines that are answered (`amqp_lines::run`).
use amqp_lines::run;
use amqp_no_memory_calls::{Outcome, print_outcome};
use fe2o3_amqp_types::codec::Error;
use std::alloc::Global;
use std::str;

/// The lines.
const LINES: &str = "accepted 005324c00000\n\
    received 005323c005025209530dff\n\
    accepted 005324c0020140\n\
    open 005310c01f08a10474657374404040404040e01002b300000003464f4f00000003424152\n\
    value c10702a1026b6b5207\n\
    batch-data -\n\
    bogus 00";

/// The answers to them.
const ANSWERS: &str = "ok 00532445 0\n\
    ok 005323c005025209530d 1\n\
    no 7 Surplus\n\
    ok 005310c01f08a10474657374404040404040e01002b300000003464f4f00000003424152 0\n\
    ok c10702a1026b6b5207 0\n\
    ok - 0\n\
    no 0 Line\n";

/// The answer to a line for whose value an allocation fails.
const NO_MEMORY: &str = "no 21 Memory";

/// The room for the answers, so that writing them doesn't allocate.
const ROOM: usize = 1024;

/// How the lines are answered.
#[derive(Clone, Copy)]
enum Answered {
    /// Each as it must be.
    All,
    /// An allocation failed for the value of one line, and the others are answered as they must be.
    ButOne,
    /// An allocation failed for a line or its answer, after others that are answered as they must be.
    Front,
    /// Otherwise.
    Otherwise,
}

/// Answers the lines, and returns whether they were answered as they must be.
pub(crate) fn check_all(rt: &HostRuntime) -> Result<bool, anyhow::Error> {
    let alloc = rt.alloc();
    let (call, outcome) = match answer_lines(alloc) {
        Answered::All => ("run", Outcome::Answered),
        Answered::ButOne => ("run, in a line", again(alloc)),
        Answered::Front => ("run", again(alloc)),
        Answered::Otherwise => ("run", Outcome::Otherwise),
    };
    print_outcome(rt, "lines", call, outcome)
}

// How the lines are answered once more.
fn again(alloc: Global) -> Outcome {
    match answer_lines(alloc) {
        Answered::All => Outcome::OutOfMemory,
        _ => Outcome::Otherwise,
    }
}

fn answer_lines(alloc: Global) -> Answered {
    let Ok(mut output) = Vec::with_capacity(alloc, ROOM) else {
        return Answered::Front;
    };
    let ended = run(LINES.as_bytes(), &mut output, alloc);
    let found = str::from_utf8(output.as_slice()).unwrap_or("");
    match ended {
        Ok(false) if found == ANSWERS => Answered::All,
        Ok(false) if is_but_one(found) => Answered::ButOne,
        Err(Error::Memory) if is_front(found) => Answered::Front,
        _ => Answered::Otherwise,
    }
}

// Whether all lines but one are answered as they must be, and that one by `no 21 Memory`.
fn is_but_one(found: &str) -> bool {
    let mut without = 0u32;
    let mut others = 0u32;
    for (answer, wanted) in found.lines().zip(ANSWERS.lines()) {
        if answer == NO_MEMORY {
            without = without.saturating_add(1);
        } else if answer != wanted {
            others = others.saturating_add(1);
        }
    }
    without == 1 && others == 0 && found.lines().count() == ANSWERS.lines().count()
}

// Whether whole lines are answered as they must be, up to some line.
fn is_front(found: &str) -> bool {
    ANSWERS.starts_with(found) && (found.is_empty() || found.ends_with('\n'))
}
