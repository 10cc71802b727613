//! Which member a delivery state is, and the member itself, by each call (Part 3, section 3.4; Part 4, section 4.5.5).
use crate::parts::is_taken;
use amqp_codec::Error;
use amqp_delivery::DeliveryState;
use amqp_full_composites::delivery::{
    full_declared, full_modified, full_received, full_rejected, full_transactional_state,
};
use amqp_plain_states::{Accepted, Released};
use amqp_test_helpers::is_given_back;
use std::alloc::Global;
use std::convert::identity;
use std::test::Fail;

fn received() -> DeliveryState {
    DeliveryState::Received(full_received())
}

fn accepted() -> DeliveryState {
    DeliveryState::Accepted(Accepted {})
}

fn rejected(alloc: Global) -> Result<DeliveryState, Error> {
    full_rejected(alloc).map(DeliveryState::Rejected)
}

fn released() -> DeliveryState {
    DeliveryState::Released(Released {})
}

fn modified(alloc: Global) -> Result<DeliveryState, Error> {
    full_modified(alloc).map(DeliveryState::Modified)
}

fn declared(alloc: Global) -> Result<DeliveryState, Error> {
    full_declared(alloc).map(DeliveryState::Declared)
}

fn of_a_transaction(alloc: Global) -> Result<DeliveryState, Error> {
    full_transactional_state(alloc).map(DeliveryState::TransactionalState)
}

// A state of the kind at this place, in the order of the kinds.
fn state_at(place: usize, alloc: Global) -> Result<DeliveryState, Error> {
    match place {
        0 => Ok(received()),
        1 => Ok(accepted()),
        2 => rejected(alloc),
        3 => Ok(released()),
        4 => modified(alloc),
        5 => declared(alloc),
        _ => of_a_transaction(alloc),
    }
}

fn is_of_kind(state: DeliveryState, place: usize) -> bool {
    state.is_received() == (place == 0)
        && state.is_accepted() == (place == 1)
        && state.is_rejected() == (place == 2)
        && state.is_released() == (place == 3)
        && state.is_modified() == (place == 4)
}

#[test]
fn which_state_it_is(rt: HostRuntime) -> Result<(), Fail> {
    for place in 0..7 {
        assert!(rt;
            is_of_kind(state_at(place, rt.alloc())?, place),
            "the state {place}"
        );
    }
    Ok(())
}

fn is_terminal(state: DeliveryState) -> bool {
    state.is_terminal()
}

// A delivery goes on from the received state and within a transaction.
#[test]
fn which_states_are_terminal(rt: HostRuntime) -> Result<(), Fail> {
    for place in 0..7 {
        let ends = is_terminal(state_at(place, rt.alloc())?);
        assert_eq!(rt; ends, place != 0 && place != 6, "the state {place}");
    }
    Ok(())
}

#[test]
fn received_state(rt: HostRuntime) -> Result<(), Fail> {
    assert!(rt; is_taken(received().received_or(7), Ok(full_received()))?);
    assert!(rt; is_given_back(accepted().received_or(7), 7));
    Ok(())
}

#[test]
fn accepted_state(rt: HostRuntime) -> Result<(), Fail> {
    assert!(rt; is_taken(accepted().accepted_or(7), Ok(Accepted {}))?);
    assert!(rt; is_taken(accepted().accepted_or_else(identity), Ok(Accepted {}))?);
    assert!(rt; is_given_back(received().accepted_or(7), 7));
    assert!(rt; is_given_back(received().accepted_or_else(identity), received()));
    Ok(())
}

#[test]
fn rejected_state(rt: HostRuntime) -> Result<(), Fail> {
    let alloc = rt.alloc();
    assert!(rt; is_taken(rejected(alloc)?.rejected_or(7), full_rejected(alloc))?);
    assert!(rt;
        is_taken(
            rejected(alloc)?.rejected_or_else(identity),
            full_rejected(alloc)
        )?
    );
    assert!(rt; is_given_back(received().rejected_or(7), 7));
    assert!(rt; is_given_back(received().rejected_or_else(identity), received()));
    Ok(())
}

#[test]
fn released_state(rt: HostRuntime) -> Result<(), Fail> {
    assert!(rt; is_taken(released().released_or(7), Ok(Released {}))?);
    assert!(rt; is_taken(released().released_or_else(identity), Ok(Released {}))?);
    assert!(rt; is_given_back(received().released_or(7), 7));
    assert!(rt; is_given_back(received().released_or_else(identity), received()));
    Ok(())
}

#[test]
fn modified_state(rt: HostRuntime) -> Result<(), Fail> {
    let alloc = rt.alloc();
    assert!(rt; is_taken(modified(alloc)?.modified_or(7), full_modified(alloc))?);
    assert!(rt;
        is_taken(
            modified(alloc)?.modified_or_else(identity),
            full_modified(alloc)
        )?
    );
    assert!(rt; is_given_back(received().modified_or(7), 7));
    assert!(rt; is_given_back(received().modified_or_else(identity), received()));
    Ok(())
}

#[test]
fn declared_state(rt: HostRuntime) -> Result<(), Fail> {
    let alloc = rt.alloc();
    assert!(rt; is_taken(declared(alloc)?.declared_or(7), full_declared(alloc))?);
    assert!(rt;
        is_taken(
            declared(alloc)?.declared_or_else(identity),
            full_declared(alloc)
        )?
    );
    assert!(rt; is_given_back(received().declared_or(7), 7));
    assert!(rt; is_given_back(received().declared_or_else(identity), received()));
    Ok(())
}
