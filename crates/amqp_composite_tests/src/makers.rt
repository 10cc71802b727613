//! What is made by a call: errors, requests, frame bodies of the security layer, and defaults.
use amqp_codec::Error as CodecError;
use amqp_errors::{
    AmqpError, ConnectionError, Error, ErrorCondition, LinkError, SessionError, TransactionError,
};
use amqp_full_composites::delivery::{full_declare, full_error};
use amqp_full_composites::parts::{binary_of, error_of, fields_of, text_of};
use amqp_full_composites::performatives::full_close;
use amqp_performatives::Close;
use amqp_plain_states::Declare;
use amqp_restricted_types::{TerminusDurability, TerminusExpiryPolicy};
use amqp_sasl::{ANONYMOUS, SASL_MAJOR, SASL_MINOR, SASL_REVISION, SaslMechanisms};
use amqp_termini::{Coordinator, Source, Target};
use amqp_test_helpers::{are_equal, check_made, is, is_made};
use amqp_values::Value;
use std::alloc::Global;
use std::test::Fail;

fn error_of_all_its_fields(alloc: Global) -> Result<Error, CodecError> {
    let description = text_of("d", alloc)?;
    let info = fields_of("i", Value::Ubyte(7), alloc)?;
    let condition = ErrorCondition::SessionError(SessionError::ErrantLink);
    Error::new(condition, Some(description), Some(info), alloc)
}

#[test]
fn an_error_of_all_its_fields(rt: HostRuntime) -> Result<(), Fail> {
    let alloc = rt.alloc();
    assert!(rt; are_equal(error_of_all_its_fields(alloc), full_error(alloc))?);
    Ok(())
}

fn not_found() -> ErrorCondition {
    ErrorCondition::AmqpError(AmqpError::NotFound)
}

#[test]
fn an_error_of_its_condition(rt: HostRuntime) -> Result<(), Fail> {
    let alloc = rt.alloc();
    let made = || Error::new(not_found(), None, None, alloc);
    check_made(
        made(),
        "00531dc01101a30e616d71703a6e6f742d666f756e64",
        alloc,
    )?;
    assert!(rt; is_made(made(), Error::from(not_found()))?);
    assert!(rt; is_made(made(), Error::from(AmqpError::NotFound))?);
    Ok(())
}

#[test]
fn errors_of_each_list(rt: HostRuntime) -> Result<(), Fail> {
    let alloc = rt.alloc();
    check_made(
        Ok(Error::from(ConnectionError::FramingError)),
        "00531dc02001a31d616d71703a636f6e6e656374696f6e3a6672616d696e672d6572726f72",
        alloc,
    )?;
    check_made(
        Ok(Error::from(SessionError::ErrantLink)),
        "00531dc01b01a318616d71703a73657373696f6e3a657272616e742d6c696e6b",
        alloc,
    )?;
    check_made(
        Ok(Error::from(LinkError::Stolen)),
        "00531dc01301a310616d71703a6c696e6b3a73746f6c656e",
        alloc,
    )?;
    check_made(
        Ok(Error::from(TransactionError::Timeout)),
        "00531dc01b01a318616d71703a7472616e73616374696f6e3a74696d656f7574",
        alloc,
    )
}

#[test]
fn a_close(rt: HostRuntime) -> Result<(), Fail> {
    let alloc = rt.alloc();
    let made = error_of("x", "y", alloc).map(Some).map(Close::new);
    assert!(rt; are_equal(made, full_close(alloc))?);
    check_made(Ok(Close::new(None)), "00531845", alloc)
}

#[test]
fn a_declare(rt: HostRuntime) -> Result<(), Fail> {
    let alloc = rt.alloc();
    let made = binary_of(&[3], alloc).map(Some).map(Declare::new);
    assert!(rt; are_equal(made, full_declare(alloc))?);
    check_made(Ok(Declare::new(None)), "00533145", alloc)
}

#[test]
fn mechanisms_by_default(rt: HostRuntime) -> Result<(), Fail> {
    let alloc = rt.alloc();
    check_made(
        SaslMechanisms::default_in(alloc),
        "005340c01201\
         e00f01b300000009414e4f4e594d4f5553",
        alloc,
    )
}

#[test]
fn constants_of_the_security_layer(rt: HostRuntime) {
    assert_eq!(rt; ANONYMOUS, "ANONYMOUS");
    assert_eq!(rt; (SASL_MAJOR, SASL_MINOR, SASL_REVISION), (1, 0, 0));
}

fn empty_source() -> Source {
    Source {
        address: None,
        durable: TerminusDurability::None,
        expiry_policy: TerminusExpiryPolicy::SessionEnd,
        timeout: 0,
        dynamic: false,
        dynamic_node_properties: None,
        distribution_mode: None,
        filter: None,
        default_outcome: None,
        outcomes: None,
        capabilities: None,
    }
}

#[test]
fn a_source_by_default(rt: HostRuntime) {
    assert!(rt; is(Source::default(), empty_source()));
}

fn empty_target() -> Target {
    Target {
        address: None,
        durable: TerminusDurability::None,
        expiry_policy: TerminusExpiryPolicy::SessionEnd,
        timeout: 0,
        dynamic: false,
        dynamic_node_properties: None,
        capabilities: None,
    }
}

#[test]
fn a_target_by_default(rt: HostRuntime) {
    assert!(rt; is(Target::default(), empty_target()));
}

#[test]
fn a_coordinator_by_default(rt: HostRuntime) {
    assert!(rt; is(Coordinator::default(), Coordinator { capabilities: None }));
}
