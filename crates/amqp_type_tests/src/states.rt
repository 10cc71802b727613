//! States of connections and sessions: each name there is, in the order of their declaration.
use amqp_codec::Error;
use amqp_restricted_types::{ConnectionState, SessionState};
use std::alloc::Global;
use std::fmt::Debug;
use std::test::Fail;

// The place of a state of a connection.
fn place_of(state: &ConnectionState) -> usize {
    match state {
        ConnectionState::Start => 0,
        ConnectionState::HeaderReceived => 1,
        ConnectionState::HeaderSent => 2,
        ConnectionState::HeaderExchange => 3,
        ConnectionState::OpenPipe => 4,
        ConnectionState::OpenClosePipe => 5,
        ConnectionState::OpenReceived => 6,
        ConnectionState::OpenSent => 7,
        ConnectionState::ClosePipe => 8,
        ConnectionState::Opened => 9,
        ConnectionState::CloseReceived => 10,
        ConnectionState::CloseSent => 11,
        ConnectionState::Discarding => 12,
        ConnectionState::End => 13,
    }
}

// The place of a state of a session.
fn place_in_session(state: &SessionState) -> usize {
    match state {
        SessionState::Unmapped => 0,
        SessionState::BeginSent => 1,
        SessionState::BeginReceived => 2,
        SessionState::Mapped => 3,
        SessionState::EndSent => 4,
        SessionState::EndReceived => 5,
        SessionState::Discarding => 6,
    }
}

// Whether the state is printed so.
fn is_printed<T: Debug + Drop>(state: T, wanted: &str, alloc: Global) -> Result<bool, Error> {
    let printed = format!(in alloc; "{state:?}")?;
    Ok(printed.as_str() == wanted)
}

// Whether a connection's state has this place and name.
fn is_connection(
    state: ConnectionState,
    place: usize,
    name: &str,
    alloc: Global,
) -> Result<bool, Error> {
    Ok(place_of(&state) == place && is_printed(state, name, alloc)?)
}

#[test]
fn connections(rt: HostRuntime) -> Result<(), Fail> {
    let alloc = rt.alloc();
    assert!(rt; is_connection(ConnectionState::Start, 0, "Start", alloc)?);
    assert!(rt; is_connection(ConnectionState::HeaderReceived, 1, "HeaderReceived", alloc)?);
    assert!(rt; is_connection(ConnectionState::HeaderSent, 2, "HeaderSent", alloc)?);
    assert!(rt; is_connection(ConnectionState::HeaderExchange, 3, "HeaderExchange", alloc)?);
    assert!(rt; is_connection(ConnectionState::OpenPipe, 4, "OpenPipe", alloc)?);
    assert!(rt; is_connection(ConnectionState::OpenClosePipe, 5, "OpenClosePipe", alloc)?);
    assert!(rt; is_connection(ConnectionState::OpenReceived, 6, "OpenReceived", alloc)?);
    assert!(rt; is_connection(ConnectionState::OpenSent, 7, "OpenSent", alloc)?);
    assert!(rt; is_connection(ConnectionState::ClosePipe, 8, "ClosePipe", alloc)?);
    assert!(rt; is_connection(ConnectionState::Opened, 9, "Opened", alloc)?);
    assert!(rt; is_connection(ConnectionState::CloseReceived, 10, "CloseReceived", alloc)?);
    assert!(rt; is_connection(ConnectionState::CloseSent, 11, "CloseSent", alloc)?);
    assert!(rt; is_connection(ConnectionState::Discarding, 12, "Discarding", alloc)?);
    assert!(rt; is_connection(ConnectionState::End, 13, "End", alloc)?);
    Ok(())
}

// Whether a session's state has this place and name.
fn is_session(state: SessionState, place: usize, name: &str, alloc: Global) -> Result<bool, Error> {
    Ok(place_in_session(&state) == place && is_printed(state, name, alloc)?)
}

#[test]
fn sessions(rt: HostRuntime) -> Result<(), Fail> {
    let alloc = rt.alloc();
    assert!(rt; is_session(SessionState::Unmapped, 0, "Unmapped", alloc)?);
    assert!(rt; is_session(SessionState::BeginSent, 1, "BeginSent", alloc)?);
    assert!(rt; is_session(SessionState::BeginReceived, 2, "BeginReceived", alloc)?);
    assert!(rt; is_session(SessionState::Mapped, 3, "Mapped", alloc)?);
    assert!(rt; is_session(SessionState::EndSent, 4, "EndSent", alloc)?);
    assert!(rt; is_session(SessionState::EndReceived, 5, "EndReceived", alloc)?);
    assert!(rt; is_session(SessionState::Discarding, 6, "Discarding", alloc)?);
    Ok(())
}
