//! Which member a state or an outcome is, and the member itself (Part 3, section 3.4; Part 4, section 4.5.5).
use amqp_test_helpers::{are_equal, is};
use fe2o3_amqp_types::codec::{Error, Serialize, to_vec};
use fe2o3_amqp_types::messaging::{Accepted, DeliveryState, Outcome, Received, Released};
use fe2o3_amqp_types::primitives::Binary;
use fe2o3_amqp_types::transaction::Declared;
use std::alloc::Global;
use std::test::Fail;

const RECEIVED: Received = Received {
    section_number: 9,
    section_offset: 13,
};

fn declared(alloc: Global) -> Declared {
    Declared {
        txn_id: Binary::from(Vec::new(alloc)),
    }
}

// Whether the state is received, accepted or released, and terminal; and is handed on unless it is accepted.
fn is_state(state: DeliveryState, which: (bool, bool, bool), terminal: bool) -> bool {
    let (received, accepted, released) = which;
    let is_which = state.is_received() == received
        && state.is_accepted() == accepted
        && state.is_released() == released
        && state.is_terminal() == terminal;
    let other = state.accepted_or_else(|state| state.is_received()).err();
    is_which && other == if accepted { None } else { Some(received) }
}

fn are_states(alloc: Global) -> bool {
    is_state(RECEIVED.into(), (true, false, false), false)
        && is_state(Accepted {}.into(), (false, true, false), true)
        && is_state(Released {}.into(), (false, false, true), true)
        && is_state(declared(alloc).into(), (false, false, false), true)
}

fn are_members_of_states(alloc: Global) -> bool {
    is(DeliveryState::from(RECEIVED).received_or(7), Ok(RECEIVED))
        && is(DeliveryState::from(Accepted {}).received_or(7), Err(7))
        && is(
            DeliveryState::from(declared(alloc)).declared_or(7),
            Ok(declared(alloc)),
        )
}

#[test]
fn states(rt: HostRuntime) {
    assert!(rt; are_states(rt.alloc()));
    assert!(rt; are_members_of_states(rt.alloc()));
}

// Whether the outcome is accepted, released or declared.
fn is_which(outcome: &Outcome, which: (bool, bool, bool)) -> bool {
    (
        outcome.is_accepted(),
        outcome.is_released(),
        outcome.is_declared(),
    ) == which
}

fn written<T: Serialize + Drop>(value: T, alloc: Global) -> Result<Vec<u8>, Error> {
    to_vec(&value, alloc)
}

// Whether the outcome is this one, and is written as the state is that it makes.
fn is_outcome(outcome: Outcome, which: (bool, bool, bool), alloc: Global) -> Result<bool, Error> {
    let is_this = is_which(&outcome, which);
    let text = to_vec(&outcome, alloc);
    let state = written(DeliveryState::from(outcome), alloc);
    Ok(are_equal(text, state)? && is_this)
}

fn are_outcomes(alloc: Global) -> Result<bool, Error> {
    Ok(
        is_outcome(Accepted {}.into(), (true, false, false), alloc)?
            && is_outcome(Released {}.into(), (false, true, false), alloc)?
            && is_outcome(declared(alloc).into(), (false, false, true), alloc)?,
    )
}

fn are_members_of_outcomes() -> bool {
    is(Outcome::from(Released {}).accepted_or(7), Err(7))
        && is(Outcome::from(Released {}).released_or(7), Ok(Released {}))
        && is(
            Outcome::from(Released {}).declared_or_else(|outcome| outcome.is_released()),
            Err(true),
        )
}

#[test]
fn outcomes(rt: HostRuntime) -> Result<(), Fail> {
    assert!(rt; are_outcomes(rt.alloc())?);
    assert!(rt; are_members_of_outcomes());
    Ok(())
}
