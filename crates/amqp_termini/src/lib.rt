//! The ends of links (Part 3, section 3.5), and the coordinator of transactions (Part 4, section 4.5.1), which can be the target of a link.
#![tactic(auto)]

mod coordinator;
pub mod laws;
mod names;
mod source;
mod source_builder;
mod target;
mod target_archetype;
mod target_builder;

pub use coordinator::Coordinator;
pub use names::{Address, FilterSet, NodeProperties};
pub use source::Source;
pub use source_builder::SourceBuilder;
pub use target::Target;
pub use target_archetype::TargetArchetype;
pub use target_builder::TargetBuilder;
