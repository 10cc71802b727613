//! The texts of errors (Part 2, sections 2.8.15 to 2.8.18; Part 4, section 4.5.8), and composites that one call makes.
use amqp_codec::Error;
use amqp_errors::{
    AmqpError, ConnectionError, Error as ErrorOfAnEnd, ErrorCondition, LinkError, SessionError,
    TransactionError,
};
use amqp_no_memory_calls::{check, is_symbol, is_text};
use amqp_read_write::from_slice;
use amqp_sasl::SaslMechanisms;
use std::alloc::Global;

/// A map of one pair, a ubyte under a symbol (Part 1, section 1.6.23).
const INFO: &[u8] = b"\xc1\x06\x02\xa3\x01i\x50\x07";

/// An error of that information (Part 2, section 2.8.14).
const ERROR: &[u8] =
    b"\x00\x53\x1d\xc0\x1a\x03\xa3\x0eamqp:not-found\x40\xc1\x06\x02\xa3\x01i\x50\x07";

/// The mechanism `ANONYMOUS` alone (Part 5, section 5.3.3.1).
const MECHANISMS: &[u8] = b"\x00\x53\x40\xc0\x12\x01\xe0\x0f\x01\xb3\x00\x00\x00\x09ANONYMOUS";

/// Makes all of these, and returns whether every call went as it must.
pub(crate) fn check_all(rt: &HostRuntime) -> Result<bool, anyhow::Error> {
    let mut well = check(
        rt,
        "error of any endpoint",
        "to_symbol",
        is_amqp_error_named,
    )?;
    well &= check(
        rt,
        "error of a connection",
        "to_symbol",
        is_connection_error_named,
    )?;
    well &= check(
        rt,
        "error of a session",
        "to_symbol",
        is_session_error_named,
    )?;
    well &= check(rt, "error of a link", "to_symbol", is_link_error_named)?;
    well &= check(
        rt,
        "error of a transaction",
        "to_symbol",
        is_transaction_error_named,
    )?;
    well &= check(rt, "error", "new", is_error_made)?;
    well &= check(rt, "mechanisms", "default_in", are_mechanisms_made)?;
    Ok(well)
}

fn is_amqp_error_named(alloc: Global) -> Result<bool, Error> {
    is_symbol(AmqpError::NotFound.to_symbol(alloc), "amqp:not-found")
}

fn is_connection_error_named(alloc: Global) -> Result<bool, Error> {
    let symbol = ConnectionError::Redirect.to_symbol(alloc);
    is_symbol(symbol, "amqp:connection:redirect")
}

fn is_session_error_named(alloc: Global) -> Result<bool, Error> {
    let symbol = SessionError::ErrantLink.to_symbol(alloc);
    is_symbol(symbol, "amqp:session:errant-link")
}

fn is_link_error_named(alloc: Global) -> Result<bool, Error> {
    is_symbol(LinkError::Stolen.to_symbol(alloc), "amqp:link:stolen")
}

fn is_transaction_error_named(alloc: Global) -> Result<bool, Error> {
    let symbol = TransactionError::Rollback.to_symbol(alloc);
    is_symbol(symbol, "amqp:transaction:rollback")
}

fn is_error_made(alloc: Global) -> Result<bool, Error> {
    let info = from_slice(INFO, alloc)?;
    let condition = ErrorCondition::AmqpError(AmqpError::NotFound);
    let error = ErrorOfAnEnd::new(condition, None, Some(info), alloc);
    is_text(error, ERROR, alloc)
}

fn are_mechanisms_made(alloc: Global) -> Result<bool, Error> {
    is_text(SaslMechanisms::default_in(alloc), MECHANISMS, alloc)
}
