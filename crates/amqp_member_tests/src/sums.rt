//! What is made of each member of the sums of states, outcomes, targets and lifetimes is that member (Part 3, sections 3.4 and 3.5).
use crate::parts::are_equal_and_copied;
use amqp_delivery::{DeliveryState, Outcome};
use amqp_full_composites::delivery::{
    full_declared, full_modified, full_received, full_rejected, full_transactional_state,
};
use amqp_full_composites::termini::{full_coordinator, full_target};
use amqp_lifetimes::{
    DeleteOnClose, DeleteOnNoLinks, DeleteOnNoLinksOrMessages, DeleteOnNoMessages, LifetimePolicy,
};
use amqp_plain_states::{Accepted, Released};
use amqp_termini::{Coordinator, TargetArchetype};
use amqp_test_helpers::{are_equal, check_made, is, is_copied};
use std::test::Fail;

fn are_states_made() -> bool {
    is(
        DeliveryState::from(full_received()),
        DeliveryState::Received(full_received()),
    ) && is(
        DeliveryState::from(Accepted {}),
        DeliveryState::Accepted(Accepted {}),
    ) && is(
        DeliveryState::from(Released {}),
        DeliveryState::Released(Released {}),
    )
}

#[test]
fn states_of_members_without_memory(rt: HostRuntime) {
    assert!(rt; are_states_made());
}

#[test]
fn state_of_rejected(rt: HostRuntime) -> Result<(), Fail> {
    let alloc = rt.alloc();
    let made = full_rejected(alloc).map(DeliveryState::from);
    assert!(rt; are_equal(made, full_rejected(alloc).map(DeliveryState::Rejected))?);
    Ok(())
}

#[test]
fn state_of_modified(rt: HostRuntime) -> Result<(), Fail> {
    let alloc = rt.alloc();
    let made = full_modified(alloc).map(DeliveryState::from);
    assert!(rt; are_equal_and_copied(made, full_modified(alloc).map(DeliveryState::Modified))?);
    Ok(())
}

#[test]
fn state_of_declared(rt: HostRuntime) -> Result<(), Fail> {
    let alloc = rt.alloc();
    let made = full_declared(alloc).map(DeliveryState::from);
    assert!(rt; are_equal(made, full_declared(alloc).map(DeliveryState::Declared))?);
    Ok(())
}

#[test]
fn state_of_transactional_state(rt: HostRuntime) -> Result<(), Fail> {
    let alloc = rt.alloc();
    let made = full_transactional_state(alloc).map(DeliveryState::from);
    let wanted = full_transactional_state(alloc).map(DeliveryState::TransactionalState);
    assert!(rt; are_equal_and_copied(made, wanted)?);
    Ok(())
}

fn are_outcomes_made() -> bool {
    is(Outcome::from(Accepted {}), Outcome::Accepted(Accepted {}))
        && is(Outcome::from(Released {}), Outcome::Released(Released {}))
        && is(
            DeliveryState::from(Outcome::Accepted(Accepted {})),
            DeliveryState::Accepted(Accepted {}),
        )
        && is(
            DeliveryState::from(Outcome::Released(Released {})),
            DeliveryState::Released(Released {}),
        )
}

#[test]
fn outcomes_of_members_without_memory(rt: HostRuntime) {
    assert!(rt; are_outcomes_made());
}

#[test]
fn outcome_of_rejected(rt: HostRuntime) -> Result<(), Fail> {
    let alloc = rt.alloc();
    let made = full_rejected(alloc).map(Outcome::from);
    assert!(rt; are_equal_and_copied(made, full_rejected(alloc).map(Outcome::Rejected))?);
    Ok(())
}

#[test]
fn state_of_the_outcome_rejected(rt: HostRuntime) -> Result<(), Fail> {
    let alloc = rt.alloc();
    let outcome = full_rejected(alloc).map(Outcome::Rejected);
    let wanted = full_rejected(alloc).map(DeliveryState::Rejected);
    assert!(rt; are_equal(outcome.map(DeliveryState::from), wanted)?);
    Ok(())
}

#[test]
fn outcome_of_modified(rt: HostRuntime) -> Result<(), Fail> {
    let alloc = rt.alloc();
    let made = full_modified(alloc).map(Outcome::from);
    assert!(rt; are_equal(made, full_modified(alloc).map(Outcome::Modified))?);
    Ok(())
}

#[test]
fn state_of_the_outcome_modified(rt: HostRuntime) -> Result<(), Fail> {
    let alloc = rt.alloc();
    let outcome = full_modified(alloc).map(Outcome::Modified);
    let wanted = full_modified(alloc).map(DeliveryState::Modified);
    assert!(rt; are_equal(outcome.map(DeliveryState::from), wanted)?);
    Ok(())
}

#[test]
fn outcome_of_declared(rt: HostRuntime) -> Result<(), Fail> {
    let alloc = rt.alloc();
    let made = full_declared(alloc).map(Outcome::from);
    assert!(rt; are_equal(made, full_declared(alloc).map(Outcome::Declared))?);
    Ok(())
}

#[test]
fn state_of_the_outcome_declared(rt: HostRuntime) -> Result<(), Fail> {
    let alloc = rt.alloc();
    let outcome = full_declared(alloc).map(Outcome::Declared);
    let wanted = full_declared(alloc).map(DeliveryState::Declared);
    assert!(rt; are_equal(outcome.map(DeliveryState::from), wanted)?);
    Ok(())
}

#[test]
fn target_of_a_node(rt: HostRuntime) -> Result<(), Fail> {
    let alloc = rt.alloc();
    let made = full_target(alloc).map(TargetArchetype::from);
    assert!(rt; are_equal_and_copied(made, full_target(alloc).map(TargetArchetype::Target))?);
    Ok(())
}

#[test]
fn target_of_a_coordinator(rt: HostRuntime) -> Result<(), Fail> {
    let alloc = rt.alloc();
    let made = full_coordinator(alloc).map(TargetArchetype::from);
    let wanted = full_coordinator(alloc).map(TargetArchetype::Coordinator);
    assert!(rt; are_equal_and_copied(made, wanted)?);
    let made = TargetArchetype::from(Coordinator::default());
    check_made(Ok(made), "00533045", alloc)
}

#[test]
fn lifetimes(rt: HostRuntime) -> Result<(), Fail> {
    let alloc = rt.alloc();
    let closing = LifetimePolicy::from(DeleteOnClose::new());
    check_made(Ok(closing), "00532b45", alloc)?;
    let unlinked = || LifetimePolicy::from(DeleteOnNoLinks::new());
    check_made(Ok(unlinked()), "00532c45", alloc)?;
    assert!(rt; is_copied(Ok(unlinked()))?);
    let empty = LifetimePolicy::from(DeleteOnNoMessages::new());
    check_made(Ok(empty), "00532d45", alloc)?;
    let unlinked_or_empty = LifetimePolicy::from(DeleteOnNoLinksOrMessages::new());
    check_made(Ok(unlinked_or_empty), "00532e45", alloc)
}
