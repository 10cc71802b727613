//! The encoder: it measures what is written to it, or fills a buffer with its canonical text.
#![tactic(auto)]

mod descriptors;
mod enclosing;
mod encoder;
mod fill;
mod frame;
pub mod laws;
mod measure;
mod pass;
mod places;
mod primitives;
mod room;
mod size;

pub use encoder::{Encoder, buffer_of, filling_encoder, measured_len, measuring_encoder};
pub use fill::Fill;
pub use measure::Measure;
pub use pass::Pass;
pub use room::{Room, SliceRoom};
