//! What is at fault at the place of a decoder's error, over bytes alone: the law of the types.
#![tactic(auto)]

pub mod laws;
