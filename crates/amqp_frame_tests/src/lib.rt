//! Tests of frames: bytes of the standard's layout for each outcome, printed text, and deliveries that are joined and split.
#![tactic(auto)]

#[cfg(test)]
mod deliveries;
#[cfg(test)]
mod frames;
