//! The lifetimes of nodes, as values and as properties (Part 3, sections 3.5.10 to 3.5.13).
use amqp_codec::Error;
use amqp_lifetimes::{
    DeleteOnClose, DeleteOnNoLinks, DeleteOnNoLinksOrMessages, DeleteOnNoMessages, LifetimePolicy,
};
use amqp_no_memory_calls::{check, is_text};
use std::alloc::Global;

/// The lifetime until the link is closed, as a property.
const PROPERTY: &[u8] = b"\xc1\x16\x02\xa3\x0flifetime-policy\x00\x53\x2b\x45";

/// Makes all of these, and returns whether every call went as it must.
pub(crate) fn check_all(rt: &HostRuntime) -> Result<bool, anyhow::Error> {
    let mut well = check(rt, "delete on close", "into_value", is_close)?;
    well &= check(rt, "delete on no links", "into_value", is_no_links)?;
    well &= check(rt, "delete on no messages", "into_value", is_no_messages)?;
    well &= check(
        rt,
        "delete on no links or messages",
        "into_value",
        is_no_links_or_messages,
    )?;
    well &= check(rt, "lifetime policy", "into_value", is_policy)?;
    well &= check(rt, "lifetime policy", "into_fields", is_property)?;
    Ok(well)
}

fn is_close(alloc: Global) -> Result<bool, Error> {
    let value = DeleteOnClose::new().into_value(alloc);
    is_text(value, b"\x00\x53\x2b\x45", alloc)
}

fn is_no_links(alloc: Global) -> Result<bool, Error> {
    let value = DeleteOnNoLinks::new().into_value(alloc);
    is_text(value, b"\x00\x53\x2c\x45", alloc)
}

fn is_no_messages(alloc: Global) -> Result<bool, Error> {
    let value = DeleteOnNoMessages::new().into_value(alloc);
    is_text(value, b"\x00\x53\x2d\x45", alloc)
}

fn is_no_links_or_messages(alloc: Global) -> Result<bool, Error> {
    let value = DeleteOnNoLinksOrMessages::new().into_value(alloc);
    is_text(value, b"\x00\x53\x2e\x45", alloc)
}

fn is_policy(alloc: Global) -> Result<bool, Error> {
    let policy = LifetimePolicy::from(DeleteOnClose::new());
    is_text(policy.into_value(alloc), b"\x00\x53\x2b\x45", alloc)
}

fn is_property(alloc: Global) -> Result<bool, Error> {
    let policy = LifetimePolicy::from(DeleteOnClose::new());
    is_text(policy.into_fields(alloc), PROPERTY, alloc)
}
