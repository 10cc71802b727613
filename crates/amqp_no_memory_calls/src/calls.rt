//! How a program begins and ends, and how a call goes.
ghost use Rattle.std.specs.Prelude.{◌≡◌, ◌==◌, true, false, Ok, Err, IfOk, MatchResult, string_bytes};
ghost use Rattle.std.specs.Process.{exit_status};
ghost use Rattle.amqp_encoder.specs.Passes.{row_text};

use amqp_codec::{Error, Serialize, Symbol};
use amqp_read_write::to_vec;
use std::alloc::Global;
use std::io::Read;
use std::process::ExitCode;

/// How a call went.
#[derive(Clone, Copy, PartialEq, Eq)]
pub enum Outcome {
    /// It returned what it must.
    Answered,
    /// An allocation failed in it, and the same call, made again, returned what it must.
    OutOfMemory,
    /// It returned something else.
    Otherwise,
}

impl Outcome {
    // The words for it.
    fn words(self) -> &'static str {
        match self {
            Outcome::Answered => "answered",
            Outcome::OutOfMemory => "out of memory",
            Outcome::Otherwise => "answered otherwise",
        }
    }
}

/// Makes as many allocations as standard input says, and frees each before the next.
pub fn ask_for_growths(rt: &(impl Input + AllocGlobal)) -> Result<(), anyhow::Error> {
    let mut number = String::new(rt.alloc());
    rt.reader().read_to_string(&mut number)?;
    let growths: u64 = number.as_str().trim().parse()?;
    for _ in 0..growths {
        let _given = vec![in rt.alloc(); 0u8];
    }
    Ok(())
}

/// Returns the status of a program: whether every call went as it must.
pub fn status(well: bool) -> ExitCode
    ensures well { well ≡ true → exit_status result ≡ 0 }
    ensures otherwise { well ≡ false → exit_status result ≡ 1 }
{
    if well {
        ExitCode::SUCCESS
    } else {
        ExitCode::FAILURE
    }
}

/// Prints how a call went, and returns whether it went as it must.
pub fn print_outcome(
    rt: &impl Print,
    name: &str,
    call: &str,
    outcome: Outcome,
) -> Result<bool, anyhow::Error>
    ensures otherwise { outcome ≡ Outcome.Otherwise → IfOk result (λ well. well ≡ false) }
    ensures well { (outcome ≡ Outcome.Otherwise → ⊥) → IfOk result (λ well. well ≡ true) }
{
    println!(rt; "{name}, {call}: {}", outcome.words())?;
    Ok(outcome != Outcome::Otherwise)
}

/// Makes a call, and returns whether it went as it must. The closure makes the call, and returns whether the call returns what it must.
/// What the call needs is made in the closure, too. It returns `false` if a failed allocation changes something.
pub fn check<R: Print + AllocGlobal, F: Fn(Global) -> Result<bool, Error>>(
    rt: &R,
    name: &str,
    call: &str,
    is_answered: F,
) -> Result<bool, anyhow::Error>
    requires { F.IsAlwaysCallable is_answered }
{
    let outcome = outcome_of(is_answered, rt.alloc());
    print_outcome(rt, name, call, outcome)
}

// How the call goes, made again if a growth was refused.
fn outcome_of<F: Fn(Global) -> Result<bool, Error>>(is_answered: F, alloc: Global) -> Outcome
    requires { F.IsAlwaysCallable is_answered }
{
    match is_answered(alloc) {
        Ok(true) => Outcome::Answered,
        Err(Error::Memory) if is_answered(alloc) == Ok(true) => Outcome::OutOfMemory,
        _ => Outcome::Otherwise,
    }
}

/// Returns whether what was made has this canonical text.
pub fn is_text<T: Serialize + Drop>(
    made: Result<T, Error>,
    text: &[u8],
    alloc: Global,
) -> Result<bool, Error>
    ensures text { MatchResult made (λ value. IfOk result (λ well. well ≡ true → row_text (T.writing.canons value) ≡ text.now))
        (λ e. result ≡ Err e) }
{
    let value = made?;
    let written = to_vec(&value, alloc)?;
    Ok(written.as_slice() == text)
}

/// Returns whether the symbol that was made is this text.
pub fn is_symbol(made: Result<Symbol, Error>, text: &str) -> Result<bool, Error>
    ensures text { MatchResult made (λ symbol. IfOk result (λ well. well ≡ true → string_bytes symbol.0 ≡ text.now))
        (λ e. result ≡ Err e) }
{
    let symbol = made?;
    Ok(symbol.as_str() == text)
}
