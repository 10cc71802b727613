//! What every layer of the AMQP 1.0 codec uses: errors, the sources that bytes are read from, symbols and descriptors. Also the format
//! codes of constructors, and how deep values nest (Part 1, sections 1.2 and 1.6); and the codes of sections (Part 3, section 3.2).
#![tactic(auto)]

pub mod container;
pub mod descriptor;
pub mod error;
pub mod format_code;
pub mod limits;
pub mod nesting;
pub mod read_source;
pub mod refusal;
pub mod section_code;
pub mod source;
pub mod symbol;

pub use container::Container;
pub use descriptor::Descriptor;
pub use error::Error;
pub use limits::Limits;
pub use read_source::ReadSource;
pub use refusal::Refusal;
pub use source::{ByteSource, pull_full};
pub use symbol::Symbol;
