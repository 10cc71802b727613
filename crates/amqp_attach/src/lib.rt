//! The begin of a link, with its two ends (Part 2, section 2.7.3), and the performatives as one type (Part 2, section 2.7).
#![tactic(auto)]

mod attach;
pub mod laws;
mod performative;
mod unsettled;

pub use attach::Attach;
pub use performative::Performative;
pub use unsettled::Unsettled;
