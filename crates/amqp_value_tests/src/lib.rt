//! Tests of values of any kind.
#![tactic(auto)]

#[cfg(test)]
mod calls;
#[cfg(test)]
mod conversions;
#[cfg(test)]
mod lazy;
#[cfg(test)]
mod limits;
#[cfg(test)]
mod nests;
#[cfg(test)]
mod order;
#[cfg(test)]
mod parts;
#[cfg(test)]
mod simple;
#[cfg(test)]
mod values;
