//! Errors with their places.
use crate::Error;

/// Why bytes are refused, and where.
#[derive(Clone, Copy, Debug, PartialEq, Eq, thiserror::Error)]
#[error("{error} at byte {at}")]
pub struct Refusal {
    /// The fault.
    pub error: Error,
    /// Its place: how many bytes of the input are before what is at fault. If the error is `Memory` or `Read`, it is where the call had
    /// got to, and says nothing about the bytes.
    pub at: usize,
}
