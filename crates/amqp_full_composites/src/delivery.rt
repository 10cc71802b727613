//! States, outcomes and errors with a value in every field, and the requests and outcomes of transactions.
use crate::parts::{binary_of, error_of, fields_of, text_fields_of, text_of};
use amqp_codec::Error as CodecError;
use amqp_delivery::{Modified, Outcome, Rejected, TransactionalState};
use amqp_errors::{Error, ErrorCondition, SessionError};
use amqp_plain_states::{Declare, Declared, Discharge, Received};
use amqp_values::Value;
use std::alloc::Global;

/// Returns an error with a value in every field (Part 2, section 2.8.14).
pub fn full_error(alloc: Global) -> Result<Error, CodecError> {
    let info = fields_of("i", Value::Ubyte(7), alloc)?;
    Ok(Error {
        condition: ErrorCondition::SessionError(SessionError::ErrantLink),
        description: Some(text_of("d", alloc)?),
        info: Some(Box::new(alloc, info)?),
    })
}

/// Returns a received state with a value in every field (Part 3, section 3.4.1).
pub fn full_received() -> Received {
    Received {
        section_number: 300,
        section_offset: 4294967297,
    }
}

/// Returns a rejected outcome with a value in every field (Part 3, section 3.4.3).
pub fn full_rejected(alloc: Global) -> Result<Rejected, CodecError> {
    Ok(Rejected {
        error: Some(error_of("x", "y", alloc)?),
    })
}

/// Returns a modified outcome with a value in every field (Part 3, section 3.4.5).
pub fn full_modified(alloc: Global) -> Result<Modified, CodecError> {
    Ok(Modified {
        delivery_failed: Some(true),
        undeliverable_here: Some(false),
        message_annotations: Some(text_fields_of("m", "v", alloc)?),
    })
}

fn delivery_failed() -> Modified {
    Modified {
        delivery_failed: Some(true),
        undeliverable_here: None,
        message_annotations: None,
    }
}

/// Returns a transactional state with a value in every field (Part 4, section 4.5.6).
pub fn full_transactional_state(alloc: Global) -> Result<TransactionalState, CodecError> {
    Ok(TransactionalState {
        txn_id: binary_of(&[7], alloc)?,
        outcome: Some(Outcome::Modified(delivery_failed())),
    })
}

/// Returns a declared outcome with a value in every field (Part 4, section 4.5.5).
pub fn full_declared(alloc: Global) -> Result<Declared, CodecError> {
    Ok(Declared {
        txn_id: binary_of(&[1, 2], alloc)?,
    })
}

/// Returns a declare with a value in every field (Part 4, section 4.5.2).
pub fn full_declare(alloc: Global) -> Result<Declare, CodecError> {
    Ok(Declare {
        global_id: Some(binary_of(&[3], alloc)?),
    })
}

/// Returns a discharge with a value in every field (Part 4, section 4.5.3).
pub fn full_discharge(alloc: Global) -> Result<Discharge, CodecError> {
    Ok(Discharge {
        txn_id: binary_of(&[4, 5], alloc)?,
        fail: Some(true),
    })
}
