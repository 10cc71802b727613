//! The messages that transfers carry.
use crate::fault::Cause;
use crate::limits::limits_for;
use fe2o3_amqp_types::codec::{Error, Value};
use fe2o3_amqp_types::messaging::Body;
use fe2o3_amqp_types::messaging::message::canonical_text_strict_within;
use std::alloc::Global;

/// Returns the canonical text of the strict message that these bytes are, or `None` if they are none.
pub(crate) fn canonical_message(bytes: &[u8], alloc: Global) -> Result<Option<Vec<u8>>, Cause> {
    let limits = limits_for(bytes);
    match canonical_text_strict_within::<Body<Value>>(bytes, &limits, alloc) {
        Ok(text) => Ok(Some(text)),
        Err(Error::Memory) => Err(Cause::Memory),
        Err(_) => Ok(None),
    }
}
