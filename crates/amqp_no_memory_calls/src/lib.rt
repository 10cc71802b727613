//! What the programs have in common that make calls while one allocation fails (`tools/no-memory` runs them). A call in which it fails must
//! return that memory ran out, and change nothing else: the same call, made again, returns what it must.
//!
//! For each call a program prints one line. It ends with `answered`, with `out of memory` if the allocation failed in it, or with
//! `answered otherwise`. The status is 0 if no line ends with `answered otherwise`.
//!
//! Standard input is a number: so many allocations are made, and freed, before the first call. So the same allocation of all, counted from
//! the first, is made in each call in turn.
#![tactic(auto)]

mod calls;
mod copies;
mod growing;

pub use calls::{Outcome, ask_for_growths, check, is_symbol, is_text, print_outcome, status};
pub use copies::{check_copy, is_builder_copied};
pub use growing::{Growing, check_growing};
