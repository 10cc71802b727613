//! Copies of composites that hold texts, bytes, lists, maps or boxes. Each value is read from its bytes, and copied.
use amqp_attach::{Attach, Performative};
use amqp_delivery::{DeliveryState, Modified, Outcome, Rejected, TransactionalState};
use amqp_errors::{Error, ErrorCondition};
use amqp_no_memory_calls::check_copy;
use amqp_performatives::{Begin, Close, Detach, Disposition, End, Flow, Open, Transfer};
use amqp_plain_states::{Declare, Declared, Discharge};
use amqp_sasl::{SaslChallenge, SaslInit, SaslMechanisms, SaslOutcome, SaslResponse};
use amqp_termini::{Coordinator, Source, Target, TargetArchetype};

/// An open (Part 2, section 2.7.1).
const OPEN: &[u8] = b"\x00\x53\x10\xc0\x04\x01\xa1\x01a";

/// A begin that offers a capability (Part 2, section 2.7.2).
const BEGIN: &[u8] = b"\x00\x53\x11\xc0\x09\x06\x40\x43\x43\x43\x40\xa3\x01a";

/// An attach (Part 2, section 2.7.3).
const ATTACH: &[u8] = b"\x00\x53\x12\xc0\x06\x03\xa1\x01a\x43\x42";

/// A flow that has a property (Part 2, section 2.7.4).
const FLOW: &[u8] =
    b"\x00\x53\x13\xc0\x12\x0b\x40\x43\x43\x43\x40\x40\x40\x40\x40\x40\xc1\x05\x02\xa3\x01a\x40";

/// A transfer that has a tag (Part 2, section 2.7.5).
const TRANSFER: &[u8] = b"\x00\x53\x14\xc0\x06\x03\x43\x40\xa0\x01a";

/// A disposition of a declared state (Part 2, section 2.7.6).
const DISPOSITION: &[u8] =
    b"\x00\x53\x15\xc0\x0e\x05\x41\x43\x40\x42\x00\x53\x33\xc0\x04\x01\xa0\x01a";

/// A detach for an error (Part 2, section 2.7.7).
const DETACH: &[u8] = b"\x00\x53\x16\xc0\x0c\x03\x43\x41\x00\x53\x1d\xc0\x04\x01\xa3\x01a";

/// An end for an error (Part 2, section 2.7.8).
const END: &[u8] = b"\x00\x53\x17\xc0\x0a\x01\x00\x53\x1d\xc0\x04\x01\xa3\x01a";

/// A close for an error (Part 2, section 2.7.9).
const CLOSE: &[u8] = b"\x00\x53\x18\xc0\x0a\x01\x00\x53\x1d\xc0\x04\x01\xa3\x01a";

/// An error that has a description and more information (Part 2, section 2.8.14).
const ERROR: &[u8] = b"\x00\x53\x1d\xc0\x0e\x03\xa3\x01a\xa1\x01b\xc1\x05\x02\xa3\x01c\x40";

/// A delivery that is rejected for an error (Part 3, section 3.4.3).
const REJECTED: &[u8] = b"\x00\x53\x25\xc0\x0a\x01\x00\x53\x1d\xc0\x04\x01\xa3\x01a";

/// A delivery whose annotations are modified (Part 3, section 3.4.5).
const MODIFIED: &[u8] = b"\x00\x53\x27\xc0\x0a\x03\x40\x40\xc1\x05\x02\xa3\x01a\x40";

/// A source of an address (Part 3, section 3.5.3).
const SOURCE: &[u8] = b"\x00\x53\x28\xc0\x04\x01\xa1\x01a";

/// A target of an address (Part 3, section 3.5.4).
const TARGET: &[u8] = b"\x00\x53\x29\xc0\x04\x01\xa1\x01a";

/// A coordinator of a capability (Part 4, section 4.5.1).
const COORDINATOR: &[u8] = b"\x00\x53\x30\xc0\x1a\x01\xa3\x17amqp:local-transactions";

/// A request for a transaction of a global identifier (Part 4, section 4.5.2).
const DECLARE: &[u8] = b"\x00\x53\x31\xc0\x04\x01\xa0\x01a";

/// A request to end a transaction (Part 4, section 4.5.3).
const DISCHARGE: &[u8] = b"\x00\x53\x32\xc0\x04\x01\xa0\x01a";

/// The identifier of a transaction that has begun (Part 4, section 4.5.5).
const DECLARED: &[u8] = b"\x00\x53\x33\xc0\x04\x01\xa0\x01a";

/// A delivery within a transaction (Part 4, section 4.5.6).
const TRANSACTIONAL_STATE: &[u8] = b"\x00\x53\x34\xc0\x04\x01\xa0\x01a";

/// A mechanism (Part 5, section 5.3.3.1).
const MECHANISMS: &[u8] = b"\x00\x53\x40\xc0\x04\x01\xa3\x01a";

/// The mechanism that was chosen (Part 5, section 5.3.3.2).
const INIT: &[u8] = b"\x00\x53\x41\xc0\x04\x01\xa3\x01a";

/// A challenge (Part 5, section 5.3.3.3).
const CHALLENGE: &[u8] = b"\x00\x53\x42\xc0\x04\x01\xa0\x01a";

/// A response (Part 5, section 5.3.3.4).
const RESPONSE: &[u8] = b"\x00\x53\x43\xc0\x04\x01\xa0\x01a";

/// An outcome that has more data (Part 5, section 5.3.3.5).
const SASL_OUTCOME: &[u8] = b"\x00\x53\x44\xc0\x06\x02\x50\x00\xa0\x01a";

/// Copies all of these, and returns whether every call went as it must.
pub(crate) fn check_all(rt: &HostRuntime) -> Result<bool, anyhow::Error> {
    let mut well = check_session(rt)?;
    well &= check_link(rt)?;
    well &= check_states(rt)?;
    well &= check_termini(rt)?;
    well &= check_transactions(rt)?;
    well &= check_security_layer(rt)?;
    Ok(well)
}

// Performatives of connections and sessions.
fn check_session(rt: &HostRuntime) -> Result<bool, anyhow::Error> {
    let mut well = check_copy::<Open>(rt, "open", OPEN)?;
    well &= check_copy::<Begin>(rt, "begin", BEGIN)?;
    well &= check_copy::<End>(rt, "end", END)?;
    well &= check_copy::<Close>(rt, "close", CLOSE)?;
    Ok(well)
}

// Performatives of links.
fn check_link(rt: &HostRuntime) -> Result<bool, anyhow::Error> {
    let mut well = check_copy::<Attach>(rt, "attach", ATTACH)?;
    well &= check_copy::<Flow>(rt, "flow", FLOW)?;
    well &= check_copy::<Transfer>(rt, "transfer", TRANSFER)?;
    well &= check_copy::<Disposition>(rt, "disposition", DISPOSITION)?;
    well &= check_copy::<Detach>(rt, "detach", DETACH)?;
    well &= check_copy::<Performative>(rt, "performative", TRANSFER)?;
    Ok(well)
}

// Errors and states of deliveries.
fn check_states(rt: &HostRuntime) -> Result<bool, anyhow::Error> {
    let mut well = check_copy::<ErrorCondition>(rt, "condition of an error", b"\xa3\x01a")?;
    well &= check_copy::<Error>(rt, "error", ERROR)?;
    well &= check_copy::<Rejected>(rt, "rejected", REJECTED)?;
    well &= check_copy::<Modified>(rt, "modified", MODIFIED)?;
    well &= check_copy::<DeliveryState>(rt, "state of a delivery", DECLARED)?;
    well &= check_copy::<Outcome>(rt, "outcome", DECLARED)?;
    Ok(well)
}

fn check_termini(rt: &HostRuntime) -> Result<bool, anyhow::Error> {
    let mut well = check_copy::<Source>(rt, "source", SOURCE)?;
    well &= check_copy::<Target>(rt, "target", TARGET)?;
    well &= check_copy::<TargetArchetype>(rt, "target of a link", TARGET)?;
    well &= check_copy::<Coordinator>(rt, "coordinator", COORDINATOR)?;
    Ok(well)
}

fn check_transactions(rt: &HostRuntime) -> Result<bool, anyhow::Error> {
    let mut well = check_copy::<Declare>(rt, "declare", DECLARE)?;
    well &= check_copy::<Discharge>(rt, "discharge", DISCHARGE)?;
    well &= check_copy::<Declared>(rt, "declared", DECLARED)?;
    well &= check_copy::<TransactionalState>(rt, "transactional state", TRANSACTIONAL_STATE)?;
    Ok(well)
}

fn check_security_layer(rt: &HostRuntime) -> Result<bool, anyhow::Error> {
    let mut well = check_copy::<SaslMechanisms>(rt, "mechanisms", MECHANISMS)?;
    well &= check_copy::<SaslInit>(rt, "init", INIT)?;
    well &= check_copy::<SaslChallenge>(rt, "challenge", CHALLENGE)?;
    well &= check_copy::<SaslResponse>(rt, "response", RESPONSE)?;
    well &= check_copy::<SaslOutcome>(rt, "outcome of the security layer", SASL_OUTCOME)?;
    Ok(well)
}
