//! A copy of each composite, and of each builder, is equal to it. What is copied has a value in every field.
use amqp_codec::Error;
use amqp_full_composites::delivery::{
    full_declare, full_declared, full_discharge, full_error, full_modified, full_received,
    full_rejected, full_transactional_state,
};
use amqp_full_composites::parts::{symbol_of, text_of};
use amqp_full_composites::performatives::{
    full_attach, full_begin, full_close, full_detach, full_disposition, full_end, full_flow,
    full_open, full_transfer,
};
use amqp_full_composites::sasl::{
    full_challenge, full_init, full_mechanisms, full_outcome, full_response,
};
use amqp_full_composites::termini::{full_coordinator, full_source, full_target};
use amqp_lifetimes::{
    DeleteOnClose, DeleteOnNoLinks, DeleteOnNoLinksOrMessages, DeleteOnNoMessages,
};
use amqp_plain_states::{Accepted, Released};
use amqp_termini::{SourceBuilder, TargetBuilder};
use amqp_test_helpers::{is, is_copied};
use amqp_values::Value;
use std::alloc::Global;
use std::test::Fail;

#[test]
fn copies_of_performatives(rt: HostRuntime) -> Result<(), Fail> {
    let alloc = rt.alloc();
    assert!(rt; is_copied(full_open(alloc))?);
    assert!(rt; is_copied(full_begin(alloc))?);
    assert!(rt; is_copied(full_attach(alloc))?);
    assert!(rt; is_copied(full_flow(alloc))?);
    assert!(rt; is_copied(full_transfer(alloc))?);
    assert!(rt; is_copied(Ok(full_disposition()))?);
    assert!(rt; is_copied(full_detach(alloc))?);
    assert!(rt; is_copied(full_end(alloc))?);
    assert!(rt; is_copied(full_close(alloc))?);
    Ok(())
}

#[test]
fn copies_of_states_and_errors(rt: HostRuntime) -> Result<(), Fail> {
    let alloc = rt.alloc();
    assert!(rt; is_copied(full_error(alloc))?);
    assert!(rt; is_copied(Ok(full_received()))?);
    assert!(rt; is_copied(Ok(Accepted {}))?);
    assert!(rt; is_copied(full_rejected(alloc))?);
    assert!(rt; is_copied(Ok(Released {}))?);
    assert!(rt; is_copied(full_modified(alloc))?);
    assert!(rt; is_copied(full_transactional_state(alloc))?);
    Ok(())
}

#[test]
fn copies_of_what_is_said_of_transactions(rt: HostRuntime) -> Result<(), Fail> {
    let alloc = rt.alloc();
    assert!(rt; is_copied(full_coordinator(alloc))?);
    assert!(rt; is_copied(full_declare(alloc))?);
    assert!(rt; is_copied(full_declared(alloc))?);
    assert!(rt; is_copied(full_discharge(alloc))?);
    Ok(())
}

#[test]
fn copies_of_termini(rt: HostRuntime) -> Result<(), Fail> {
    let alloc = rt.alloc();
    assert!(rt; is_copied(full_source(alloc))?);
    assert!(rt; is_copied(full_target(alloc))?);
    assert!(rt; is_copied(Ok(DeleteOnClose::default()))?);
    assert!(rt; is_copied(Ok(DeleteOnNoLinks::default()))?);
    assert!(rt; is_copied(Ok(DeleteOnNoMessages::default()))?);
    assert!(rt; is_copied(Ok(DeleteOnNoLinksOrMessages::default()))?);
    Ok(())
}

#[test]
fn copies_of_the_security_layer(rt: HostRuntime) -> Result<(), Fail> {
    let alloc = rt.alloc();
    assert!(rt; is_copied(full_mechanisms(alloc))?);
    assert!(rt; is_copied(full_init(alloc))?);
    assert!(rt; is_copied(full_challenge(alloc))?);
    assert!(rt; is_copied(full_response(alloc))?);
    assert!(rt; is_copied(full_outcome(alloc))?);
    Ok(())
}

// A target of an address is built by a copy of its builder, too.
fn is_target_built(alloc: Global) -> Result<bool, Error> {
    let address = text_of("q", alloc)?;
    let builder = TargetBuilder::new().address(address);
    let copy = builder.clone()?;
    Ok(is(copy.build(), builder.build()))
}

// A source of a filter is built by a copy of its builder, too.
fn is_source_built(alloc: Global) -> Result<bool, Error> {
    let filter = symbol_of("f", alloc)?;
    let builder = SourceBuilder::new().add_to_filter_using_legacy_format(
        filter,
        Value::Bool(true),
        alloc,
    )?;
    let copy = builder.clone()?;
    Ok(is(copy.build(), builder.build()))
}

#[test]
fn copies_of_builders(rt: HostRuntime) -> Result<(), Fail> {
    let alloc = rt.alloc();
    assert!(rt; is_target_built(alloc)?);
    assert!(rt; is_source_built(alloc)?);
    Ok(())
}
