//! The properties of nodes (Part 3, section 3.5.9): the lifetimes of nodes that are made for links, and the distribution modes that a node
//! supports.
#![tactic(auto)]

mod delete_on_close;
mod delete_on_no_links;
mod delete_on_no_links_or_messages;
mod delete_on_no_messages;
pub mod laws;
mod lifetime_policy;
mod lifetime_values;
pub mod properties;
mod supported_dist_modes;

pub use delete_on_close::DeleteOnClose;
pub use delete_on_no_links::DeleteOnNoLinks;
pub use delete_on_no_links_or_messages::DeleteOnNoLinksOrMessages;
pub use delete_on_no_messages::DeleteOnNoMessages;
pub use lifetime_policy::LifetimePolicy;
pub use supported_dist_modes::SupportedDistModes;
