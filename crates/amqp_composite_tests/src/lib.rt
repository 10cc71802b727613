//! Tests of composites: each built field by field and written; copies, conversions and what is made by a call. Also the texts of errors,
//! the builders of sources and targets, and lifetimes.
#![tactic(auto)]

#[cfg(test)]
mod builders;
#[cfg(test)]
mod copies;
#[cfg(test)]
mod delivery;
#[cfg(test)]
mod errors;
#[cfg(test)]
mod growth;
#[cfg(test)]
mod made;
#[cfg(test)]
mod makers;
#[cfg(test)]
mod performatives;
#[cfg(test)]
mod sasl;
#[cfg(test)]
mod termini;
#[cfg(test)]
mod written;
