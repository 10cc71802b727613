//! The primitive types that std doesn't have (Part 1, section 1.6): decimals, points in time, identifiers and bytes; and symbols whose text
//! is borrowed.
#![tactic(auto)]

mod binary;
mod dec128;
mod dec32;
mod dec64;
pub mod laws;
mod symbol_ref;
mod timestamp;
mod uuid;

pub use binary::{Binary, ByteBuf};
pub use dec32::Dec32;
pub use dec64::Dec64;
pub use dec128::Dec128;
pub use symbol_ref::SymbolRef;
pub use timestamp::Timestamp;
pub use uuid::Uuid;
