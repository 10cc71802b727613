//! Tests of messages: each read in any order, strictly and within limits, written, and refused.
#![tactic(auto)]

#[cfg(test)]
mod limits;
#[cfg(test)]
mod message_calls;
#[cfg(test)]
mod messages;
