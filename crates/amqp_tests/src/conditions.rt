//! The texts of error conditions, both ways (Part 2, sections 2.8.14 to 2.8.18; Part 4, section 4.5.8).
use amqp_sums::restricted::{RestrictedText, from_symbol, symbol_of};
use amqp_test_helpers::{are_equal, check_made, is_refused};
use fe2o3_amqp_types::codec::{Error, Symbol, from_slice, to_vec};
use fe2o3_amqp_types::definitions::{
    AmqpError, ConnectionError, ErrorCondition, LinkError, SessionError,
};
use fe2o3_amqp_types::transaction::TransactionError;
use std::alloc::Global;
use std::test::Fail;

const AMQP: &[&str] = &[
    "amqp:internal-error",
    "amqp:not-found",
    "amqp:unauthorized-access",
    "amqp:decode-error",
    "amqp:resource-limit-exceeded",
    "amqp:not-allowed",
    "amqp:invalid-field",
    "amqp:not-implemented",
    "amqp:resource-locked",
    "amqp:precondition-failed",
    "amqp:resource-deleted",
    "amqp:illegal-state",
    "amqp:frame-size-too-small",
];

const CONNECTION: &[&str] = &[
    "amqp:connection:forced",
    "amqp:connection:framing-error",
    "amqp:connection:redirect",
];

const SESSION: &[&str] = &[
    "amqp:session:window-violation",
    "amqp:session:errant-link",
    "amqp:session:handle-in-use",
    "amqp:session:unattached-handle",
];

const LINK: &[&str] = &[
    "amqp:link:detach-forced",
    "amqp:link:transfer-limit-exceeded",
    "amqp:link:message-size-exceeded",
    "amqp:link:redirect",
    "amqp:link:stolen",
];

const TRANSACTION: &[&str] = &[
    "amqp:transaction:unknown-id",
    "amqp:transaction:rollback",
    "amqp:transaction:timeout",
];

// What the bytes of the symbol are read as.
fn condition_of(symbol: &Symbol, alloc: Global) -> Result<ErrorCondition, Error> {
    let bytes = to_vec(symbol, alloc)?;
    from_slice(bytes.as_slice(), alloc)
}

// Whether the value is taken out of its symbol again.
fn is_taken_back<T: RestrictedText + PartialEq>(value: T, alloc: Global) -> Result<bool, Error> {
    let symbol = symbol_of(&value, alloc)?;
    match from_symbol::<T>(symbol) {
        Ok(taken) => Ok(taken == value),
        Err(_) => Ok(false),
    }
}

// Whether the value's symbol is this text, and is read as its condition.
fn is_read<T: RestrictedText + Into<ErrorCondition>>(
    value: T,
    text: &str,
    alloc: Global,
) -> Result<bool, Error> {
    let symbol = symbol_of(&value, alloc)?;
    let is_condition = are_equal(condition_of(&symbol, alloc), Ok(value.into()))?;
    Ok(is_condition && symbol.as_str() == text)
}

// Whether the text is that of a value, both ways, and is read as its condition.
fn is_listed<T: RestrictedText + PartialEq + Into<ErrorCondition>>(
    text: &str,
    alloc: Global,
) -> bool {
    T::from_text(text).map(|value| is_taken_back(value, alloc)) == Some(Ok(true))
        && T::from_text(text).map(|value| is_read(value, text, alloc)) == Some(Ok(true))
}

// The first text that isn't that of a value, both ways, or that is read as another condition.
fn first_wrong<T: RestrictedText + PartialEq + Into<ErrorCondition>>(
    texts: &[&'static str],
    alloc: Global,
) -> Option<&'static str> {
    for text in texts {
        if !is_listed::<T>(*text, alloc) {
            return Some(*text);
        }
    }
    None
}

#[test]
fn listed_texts(rt: HostRuntime) {
    let alloc = rt.alloc();
    assert_eq!(rt; first_wrong::<AmqpError>(AMQP, alloc), None);
    assert_eq!(rt; first_wrong::<ConnectionError>(CONNECTION, alloc), None);
    assert_eq!(rt; first_wrong::<SessionError>(SESSION, alloc), None);
    assert_eq!(rt; first_wrong::<LinkError>(LINK, alloc), None);
    assert_eq!(rt; first_wrong::<TransactionError>(TRANSACTION, alloc), None);
}

#[test]
fn places_in_their_enums(rt: HostRuntime) {
    assert_eq!(rt; AmqpError::DecodeError.as_str(), "amqp:decode-error");
    assert_eq!(rt;
        ConnectionError::Redirect.as_str(),
        "amqp:connection:redirect"
    );
    assert_eq!(rt;
        SessionError::HandleInUse.as_str(),
        "amqp:session:handle-in-use"
    );
    assert_eq!(rt; LinkError::Stolen.as_str(), "amqp:link:stolen");
    assert_eq!(rt;
        TransactionError::Rollback.as_str(),
        "amqp:transaction:rollback"
    );
}

// A condition that the standard doesn't list.
fn foo(alloc: Global) -> Result<ErrorCondition, Error> {
    let text = String::from_str(alloc, "foo")?;
    Ok(ErrorCondition::Custom(Symbol(text)))
}

#[test]
fn texts_of_their_own(rt: HostRuntime) -> Result<(), Fail> {
    let alloc = rt.alloc();
    let bytes = [0xa3, 0x03, 0x66, 0x6f, 0x6f];
    assert!(rt; are_equal(from_slice(&bytes, alloc), foo(alloc))?);
    check_made::<ErrorCondition>(from_slice(&bytes, alloc), "a303666f6f", alloc)?;
    assert!(rt; is_refused::<AmqpError>(from_slice(&bytes, alloc), Error::UnknownText));
    Ok(())
}

// Whether the symbol is given back.
fn is_given_back<T: Drop>(taken: Result<T, Symbol>, text: &str) -> bool {
    match taken {
        Ok(_) => false,
        Err(symbol) => symbol.as_str() == text,
    }
}

#[test]
fn other_texts_are_given_back(rt: HostRuntime) -> Result<(), Fail> {
    let text = "amqp:link:stolen";
    assert_eq!(rt; AmqpError::try_from("foo").err(), Some("foo"));
    assert_eq!(rt; LinkError::try_from("amqp:link:").err(), Some("amqp:link:"));
    let symbol = Symbol(String::from_str(rt.alloc(), text)?);
    assert!(rt; is_given_back(SessionError::try_from(symbol), text));
    Ok(())
}
