//! Tests of the sections of messages: each built by its own calls and written, read again, printed and refused.
#![tactic(auto)]

#[cfg(test)]
mod annotations;
#[cfg(test)]
mod bodies;
#[cfg(test)]
mod headers;
#[cfg(test)]
mod parts;
