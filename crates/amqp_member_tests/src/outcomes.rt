//! Which member an outcome is, and the member itself, by each call (Part 3, section 3.4; Part 4, section 4.5.5).
use crate::parts::is_taken;
use amqp_codec::Error;
use amqp_delivery::Outcome;
use amqp_full_composites::delivery::{full_declared, full_modified, full_rejected};
use amqp_plain_states::{Accepted, Released};
use amqp_test_helpers::is_given_back;
use std::alloc::Global;
use std::convert::identity;
use std::test::Fail;

fn accepted() -> Outcome {
    Outcome::Accepted(Accepted {})
}

fn rejected(alloc: Global) -> Result<Outcome, Error> {
    full_rejected(alloc).map(Outcome::Rejected)
}

fn released() -> Outcome {
    Outcome::Released(Released {})
}

fn modified(alloc: Global) -> Result<Outcome, Error> {
    full_modified(alloc).map(Outcome::Modified)
}

fn declared(alloc: Global) -> Result<Outcome, Error> {
    full_declared(alloc).map(Outcome::Declared)
}

// An outcome of the kind at this place, in the order of the kinds.
fn outcome_at(place: usize, alloc: Global) -> Result<Outcome, Error> {
    match place {
        0 => Ok(accepted()),
        1 => rejected(alloc),
        2 => Ok(released()),
        3 => modified(alloc),
        _ => declared(alloc),
    }
}

fn is_of_kind(outcome: Outcome, place: usize) -> bool {
    outcome.is_accepted() == (place == 0)
        && outcome.is_rejected() == (place == 1)
        && outcome.is_released() == (place == 2)
        && outcome.is_modified() == (place == 3)
        && outcome.is_declared() == (place == 4)
}

#[test]
fn which_outcome_it_is(rt: HostRuntime) -> Result<(), Fail> {
    for place in 0..5 {
        assert!(rt;
            is_of_kind(outcome_at(place, rt.alloc())?, place),
            "the outcome {place}"
        );
    }
    Ok(())
}

#[test]
fn accepted_outcome(rt: HostRuntime) -> Result<(), Fail> {
    assert!(rt; is_taken(accepted().accepted_or(7), Ok(Accepted {}))?);
    assert!(rt; is_taken(accepted().accepted_or_else(identity), Ok(Accepted {}))?);
    assert!(rt; is_given_back(released().accepted_or(7), 7));
    assert!(rt; is_given_back(released().accepted_or_else(identity), released()));
    Ok(())
}

#[test]
fn rejected_outcome(rt: HostRuntime) -> Result<(), Fail> {
    let alloc = rt.alloc();
    assert!(rt; is_taken(rejected(alloc)?.rejected_or(7), full_rejected(alloc))?);
    assert!(rt;
        is_taken(
            rejected(alloc)?.rejected_or_else(identity),
            full_rejected(alloc)
        )?
    );
    assert!(rt; is_given_back(accepted().rejected_or(7), 7));
    assert!(rt; is_given_back(accepted().rejected_or_else(identity), accepted()));
    Ok(())
}

#[test]
fn released_outcome(rt: HostRuntime) -> Result<(), Fail> {
    assert!(rt; is_taken(released().released_or(7), Ok(Released {}))?);
    assert!(rt; is_taken(released().released_or_else(identity), Ok(Released {}))?);
    assert!(rt; is_given_back(accepted().released_or(7), 7));
    assert!(rt; is_given_back(accepted().released_or_else(identity), accepted()));
    Ok(())
}

#[test]
fn modified_outcome(rt: HostRuntime) -> Result<(), Fail> {
    let alloc = rt.alloc();
    assert!(rt; is_taken(modified(alloc)?.modified_or(7), full_modified(alloc))?);
    assert!(rt;
        is_taken(
            modified(alloc)?.modified_or_else(identity),
            full_modified(alloc)
        )?
    );
    assert!(rt; is_given_back(accepted().modified_or(7), 7));
    assert!(rt; is_given_back(accepted().modified_or_else(identity), accepted()));
    Ok(())
}

#[test]
fn declared_outcome(rt: HostRuntime) -> Result<(), Fail> {
    let alloc = rt.alloc();
    assert!(rt; is_taken(declared(alloc)?.declared_or(7), full_declared(alloc))?);
    assert!(rt;
        is_taken(
            declared(alloc)?.declared_or_else(identity),
            full_declared(alloc)
        )?
    );
    assert!(rt; is_given_back(accepted().declared_or(7), 7));
    assert!(rt; is_given_back(accepted().declared_or_else(identity), accepted()));
    Ok(())
}
