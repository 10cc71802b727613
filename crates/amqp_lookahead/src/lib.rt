//! The input of a decoder: the bytes of a source, which are looked at before they are taken, and the codes and names in them.
#![tactic(auto)]

mod input;
pub mod laws;
pub mod names;
mod sections;

pub use input::Input;
