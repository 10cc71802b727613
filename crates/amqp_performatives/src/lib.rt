//! All performatives but `Attach`: those of connections, sessions, links and deliveries (Part 2, section 2.7). The frames that they are in
//! aren't here.
#![tactic(auto)]

mod begin;
mod close;
mod detach;
mod disposition;
mod end;
mod flow;
pub mod laws;
mod open;
mod transfer;

pub use begin::Begin;
pub use close::Close;
pub use detach::Detach;
pub use disposition::Disposition;
pub use end::End;
pub use flow::Flow;
pub use open::Open;
pub use transfer::Transfer;
