//! Tests of the types of values and of their containers: their calls and conversions, what is written and what isn't, and failed
//! allocations.
#![tactic(auto)]

#[cfg(test)]
mod container_calls;
#[cfg(test)]
mod containers_written;
#[cfg(test)]
mod conversions;
#[cfg(test)]
mod copies;
#[cfg(test)]
mod described;
#[cfg(test)]
mod growth;
#[cfg(test)]
mod keys;
#[cfg(test)]
mod limits;
#[cfg(test)]
mod map_calls;
#[cfg(test)]
mod mechanisms;
#[cfg(test)]
mod primitives_written;
#[cfg(test)]
mod restricted;
#[cfg(test)]
mod states;
#[cfg(test)]
mod written;
