//! Tests of batches and bodies: each read in any encoding, written, and refused.
#![tactic(auto)]

#[cfg(test)]
mod batches;
#[cfg(test)]
mod bodies;
#[cfg(test)]
mod plain;
