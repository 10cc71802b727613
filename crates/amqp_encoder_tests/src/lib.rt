//! Tests of the encoder: rows of canonical text and of refusals.
#![tactic(auto)]

#[cfg(test)]
mod steps;
#[cfg(test)]
mod writing;
