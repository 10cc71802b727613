//! Tests of types that are one of several: which member a value is, and what is made of each member.
#![tactic(auto)]

#[cfg(test)]
mod order;
#[cfg(test)]
mod outcomes;
#[cfg(test)]
mod parts;
#[cfg(test)]
mod performatives;
#[cfg(test)]
mod states;
#[cfg(test)]
mod sums;
