//! Delivery states that hold no error and no map (Part 3, section 3.4), and the requests and the outcome of transactions (Part 4, section
//! 4.5).
#![tactic(auto)]

mod accepted;
mod declare;
mod declared;
mod discharge;
pub mod laws;
mod names;
mod received;
mod released;

pub use accepted::Accepted;
pub use declare::Declare;
pub use declared::Declared;
pub use discharge::Discharge;
pub use names::TransactionId;
pub use received::Received;
pub use released::Released;
