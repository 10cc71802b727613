//! The sections of a message one after another, as bytes, without making their values (Part 3, section 3.2).
#![tactic(auto)]

mod section_kind;
mod sections;

pub use section_kind::SectionKind;
pub use sections::{Section, Sections, split_section};
