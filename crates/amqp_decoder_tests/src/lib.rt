//! Tests of the decoder: worked rows, each over several sources, and each call that reads. There are also tests of paths.
#![tactic(auto)]

mod dripping;
#[cfg(test)]
mod limits;
#[cfg(test)]
mod paths;
#[cfg(test)]
mod reading;
#[cfg(test)]
mod reading_calls;
#[cfg(test)]
mod steps;

pub use dripping::Dripping;
