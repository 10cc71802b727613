//! Tests that cross crates: calls on values of several crates, over slices and over readers, types of a user, and the uses.
#![tactic(auto)]

#[cfg(test)]
mod appending;
#[cfg(test)]
mod conditions;
#[cfg(test)]
mod delivery;
#[cfg(test)]
mod from_readers;
#[cfg(test)]
mod iterators;
#[cfg(test)]
mod limited_readers;
#[cfg(test)]
mod members;
#[cfg(test)]
mod readers;
#[cfg(test)]
mod user_types;
#[cfg(test)]
mod uses;
#[cfg(test)]
mod wire;
