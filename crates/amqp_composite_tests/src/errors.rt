//! The errors of each list, by their texts, as errors of their own and as conditions (Part 2, sections 2.8.14 to 2.8.18; Part 4,
//! section 4.5.8).
use amqp_codec::{Deserialize, Error, Serialize, Symbol};
use amqp_errors::{
    AmqpError, ConnectionError, ErrorCondition, LinkError, SessionError, TransactionError,
};
use amqp_full_composites::parts::symbol_of;
use amqp_read_write::{from_slice, to_vec};
use amqp_test_helpers::{is, is_given_back};
use std::alloc::Global;
use std::test::Fail;

// The canonical spelling of a short symbol.
fn spelled(text: &str, alloc: Global) -> Result<Vec<u8>, Fail> {
    let Ok(len) = u8::try_from(text.len()) else {
        return Err(Fail::new(format_args!("{text} is too long")));
    };
    let mut spelling = Vec::new(alloc);
    spelling.push(0xa3)?;
    spelling.push(len)?;
    spelling.extend_from_slice(text.as_bytes())?;
    Ok(spelling)
}

// The value is written as the symbol, and the symbol is read as the value.
fn check_text<T: Serialize + Deserialize + PartialEq>(
    value: T,
    text: &str,
    alloc: Global,
) -> Result<(), Fail> {
    let spelling = spelled(text, alloc)?;
    if to_vec(&value, alloc)? != spelling {
        return Err(Fail::new(format_args!("{text} isn't written")));
    }
    let read: T = from_slice(spelling.as_slice(), alloc)?;
    if read != value {
        return Err(Fail::new(format_args!("{text} is read otherwise")));
    }
    Ok(())
}

#[test]
fn texts_of_errors_of_any_endpoint(rt: HostRuntime) -> Result<(), Fail> {
    let alloc = rt.alloc();
    check_text(AmqpError::InternalError, "amqp:internal-error", alloc)?;
    check_text(AmqpError::NotFound, "amqp:not-found", alloc)?;
    check_text(
        AmqpError::UnauthorizedAccess,
        "amqp:unauthorized-access",
        alloc,
    )?;
    check_text(AmqpError::DecodeError, "amqp:decode-error", alloc)?;
    check_text(
        AmqpError::ResourceLimitExceeded,
        "amqp:resource-limit-exceeded",
        alloc,
    )?;
    check_text(AmqpError::NotAllowed, "amqp:not-allowed", alloc)?;
    check_text(AmqpError::InvalidField, "amqp:invalid-field", alloc)?;
    check_text(AmqpError::NotImplemented, "amqp:not-implemented", alloc)?;
    check_text(AmqpError::ResourceLocked, "amqp:resource-locked", alloc)?;
    check_text(
        AmqpError::PreconditionFailed,
        "amqp:precondition-failed",
        alloc,
    )?;
    check_text(AmqpError::ResourceDeleted, "amqp:resource-deleted", alloc)?;
    check_text(AmqpError::IllegalState, "amqp:illegal-state", alloc)?;
    check_text(
        AmqpError::FrameSizeTooSmall,
        "amqp:frame-size-too-small",
        alloc,
    )
}

#[test]
fn texts_of_errors_of_connections(rt: HostRuntime) -> Result<(), Fail> {
    let alloc = rt.alloc();
    check_text(
        ConnectionError::ConnectionForced,
        "amqp:connection:forced",
        alloc,
    )?;
    check_text(
        ConnectionError::FramingError,
        "amqp:connection:framing-error",
        alloc,
    )?;
    check_text(ConnectionError::Redirect, "amqp:connection:redirect", alloc)
}

#[test]
fn texts_of_errors_of_sessions(rt: HostRuntime) -> Result<(), Fail> {
    let alloc = rt.alloc();
    check_text(
        SessionError::WindowViolation,
        "amqp:session:window-violation",
        alloc,
    )?;
    check_text(SessionError::ErrantLink, "amqp:session:errant-link", alloc)?;
    check_text(
        SessionError::HandleInUse,
        "amqp:session:handle-in-use",
        alloc,
    )?;
    check_text(
        SessionError::UnattachedHandle,
        "amqp:session:unattached-handle",
        alloc,
    )
}

#[test]
fn texts_of_errors_of_links(rt: HostRuntime) -> Result<(), Fail> {
    let alloc = rt.alloc();
    check_text(LinkError::DetachForced, "amqp:link:detach-forced", alloc)?;
    check_text(
        LinkError::TransferLimitExceeded,
        "amqp:link:transfer-limit-exceeded",
        alloc,
    )?;
    check_text(
        LinkError::MessageSizeExceeded,
        "amqp:link:message-size-exceeded",
        alloc,
    )?;
    check_text(LinkError::Redirect, "amqp:link:redirect", alloc)?;
    check_text(LinkError::Stolen, "amqp:link:stolen", alloc)
}

#[test]
fn texts_of_errors_of_transactions(rt: HostRuntime) -> Result<(), Fail> {
    let alloc = rt.alloc();
    check_text(
        TransactionError::UnknownId,
        "amqp:transaction:unknown-id",
        alloc,
    )?;
    check_text(
        TransactionError::Rollback,
        "amqp:transaction:rollback",
        alloc,
    )?;
    check_text(TransactionError::Timeout, "amqp:transaction:timeout", alloc)
}

// Whether the values are not the same, and a copy of each is equal to it.
fn are_two<T: Clone + PartialEq>(value: &T, other: &T) -> Result<bool, Error> {
    let copy = value.clone()?;
    let copy_of_other = other.clone()?;
    Ok(value != other && copy == *value && copy_of_other == *other)
}

// Two values are written as the symbol, and it is read as the first.
fn check_both<T: Serialize + Deserialize + Clone + PartialEq>(
    value: T,
    other: Result<T, Error>,
    text: &str,
    alloc: Global,
) -> Result<(), Fail> {
    let other = other?;
    let written = to_vec(&other, alloc)?;
    if written != spelled(text, alloc)? || !are_two(&value, &other)? {
        return Err(Fail::new(format_args!("{text} as a text of its own")));
    }
    check_text(value, text, alloc)
}

// Each condition is the symbol, also where it is made as one of an extension's own.
fn check_condition(condition: ErrorCondition, text: &str, alloc: Global) -> Result<(), Fail> {
    let custom = symbol_of(text, alloc).map(ErrorCondition::Custom);
    check_both(condition, custom, text, alloc)
}

#[test]
fn conditions_of_each_list(rt: HostRuntime) -> Result<(), Fail> {
    let alloc = rt.alloc();
    let condition = ErrorCondition::AmqpError(AmqpError::NotFound);
    check_condition(condition, "amqp:not-found", alloc)?;
    let condition = ErrorCondition::ConnectionError(ConnectionError::Redirect);
    check_condition(condition, "amqp:connection:redirect", alloc)?;
    let condition = ErrorCondition::SessionError(SessionError::ErrantLink);
    check_condition(condition, "amqp:session:errant-link", alloc)?;
    let condition = ErrorCondition::LinkError(LinkError::Redirect);
    check_condition(condition, "amqp:link:redirect", alloc)?;
    let condition = ErrorCondition::TransactionError(TransactionError::Timeout);
    check_condition(condition, "amqp:transaction:timeout", alloc)
}

fn are_conditions_made() -> bool {
    is(
        ErrorCondition::from(AmqpError::NotFound),
        ErrorCondition::AmqpError(AmqpError::NotFound),
    ) && is(
        ErrorCondition::from(ConnectionError::Redirect),
        ErrorCondition::ConnectionError(ConnectionError::Redirect),
    ) && is(
        ErrorCondition::from(SessionError::ErrantLink),
        ErrorCondition::SessionError(SessionError::ErrantLink),
    ) && is(
        ErrorCondition::from(LinkError::Redirect),
        ErrorCondition::LinkError(LinkError::Redirect),
    ) && is(
        ErrorCondition::from(TransactionError::Timeout),
        ErrorCondition::TransactionError(TransactionError::Timeout),
    )
}

#[test]
fn conditions_made_of_errors(rt: HostRuntime) {
    assert!(rt; are_conditions_made());
}

// Whether its text, and the symbol that it answered, are the error; and a copy of it is equal to it.
fn is_made_of<T>(error: T, text: &'static str, symbol: Result<Symbol, Error>) -> Result<bool, Error>
where
    T: TryFrom<&'static str, Error = &'static str>
        + TryFrom<Symbol, Error = Symbol>
        + Clone
        + PartialEq
        + Drop,
{
    let symbol = symbol?;
    let copy = error.clone()?;
    let is_text = symbol.as_str() == text;
    let of_text: Option<T> = T::try_from(text).ok();
    let of_symbol: Option<T> = T::try_from(symbol).ok();
    Ok(
        is_text
            && copy == error
            && of_text.as_ref() == Some(&error)
            && of_symbol.as_ref() == Some(&error),
    )
}

#[test]
fn calls_of_an_error_of_any_endpoint(rt: HostRuntime) -> Result<(), Fail> {
    let text = "amqp:not-found";
    assert_eq!(rt; AmqpError::NotFound.as_str(), text);
    let symbol = AmqpError::NotFound.to_symbol(rt.alloc());
    assert!(rt; is_made_of(AmqpError::NotFound, text, symbol)?);
    Ok(())
}

#[test]
fn calls_of_an_error_of_a_connection(rt: HostRuntime) -> Result<(), Fail> {
    let text = "amqp:connection:framing-error";
    assert_eq!(rt; ConnectionError::FramingError.as_str(), text);
    let symbol = ConnectionError::FramingError.to_symbol(rt.alloc());
    assert!(rt; is_made_of(ConnectionError::FramingError, text, symbol)?);
    Ok(())
}

#[test]
fn calls_of_an_error_of_a_session(rt: HostRuntime) -> Result<(), Fail> {
    let text = "amqp:session:handle-in-use";
    assert_eq!(rt; SessionError::HandleInUse.as_str(), text);
    let symbol = SessionError::HandleInUse.to_symbol(rt.alloc());
    assert!(rt; is_made_of(SessionError::HandleInUse, text, symbol)?);
    Ok(())
}

#[test]
fn calls_of_an_error_of_a_link(rt: HostRuntime) -> Result<(), Fail> {
    let text = "amqp:link:stolen";
    assert_eq!(rt; LinkError::Stolen.as_str(), text);
    let symbol = LinkError::Stolen.to_symbol(rt.alloc());
    assert!(rt; is_made_of(LinkError::Stolen, text, symbol)?);
    Ok(())
}

#[test]
fn calls_of_an_error_of_a_transaction(rt: HostRuntime) -> Result<(), Fail> {
    let text = "amqp:transaction:rollback";
    assert_eq!(rt; TransactionError::Rollback.as_str(), text);
    let symbol = TransactionError::Rollback.to_symbol(rt.alloc());
    assert!(rt; is_made_of(TransactionError::Rollback, text, symbol)?);
    Ok(())
}

#[test]
fn errors_of_other_texts_are_given_back(rt: HostRuntime) -> Result<(), Fail> {
    let alloc = rt.alloc();
    let other = "amqp:other";
    assert!(rt; is_given_back(AmqpError::try_from(other), other));
    assert!(rt; is_given_back(ConnectionError::try_from(other), other));
    assert!(rt; is_given_back(SessionError::try_from(other), other));
    assert!(rt; is_given_back(LinkError::try_from(other), other));
    assert!(rt; is_given_back(TransactionError::try_from(other), other));
    let given = ConnectionError::try_from(symbol_of(other, alloc)?);
    assert!(rt; is_given_back(given, symbol_of(other, alloc)?));
    let given = TransactionError::try_from(symbol_of(other, alloc)?);
    assert!(rt; is_given_back(given, symbol_of(other, alloc)?));
    Ok(())
}
