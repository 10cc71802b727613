//! What is found in bytes, read from a slice and from a reader.
use crate::one_by_one::OneByOne;
use fe2o3_amqp_types::codec::{
    Deserialize, Error, Limits, ReadSource, Refusal, from_reader_located, from_slice_located,
};
use std::alloc::Global;

/// Why bytes are refused, or `None` if a value was read.
type Found = Option<Refusal>;

/// What was found of the same bytes in two ways.
#[derive(Drop)]
pub(crate) struct Answer {
    of_slice: Found,
    of_reader: Found,
}

impl Answer {
    /// Returns the answer as it is printed: what was found, in both ways if they differ.
    pub(crate) fn printed(&self, alloc: Global) -> Result<String, Error> {
        let of_slice = printed(&self.of_slice, alloc)?;
        let of_reader = printed(&self.of_reader, alloc)?;
        if of_slice == of_reader {
            return Ok(of_slice);
        }
        Ok(format!(in alloc; "{of_slice} of a slice, and by {of_reader} of a reader")?)
    }
}

// The error's name and the place, or that a value was read.
fn printed(found: &Found, alloc: Global) -> Result<String, Error> {
    match found {
        Some(refusal) => {
            let name = refusal.error.name();
            let at = refusal.at;
            Ok(format!(in alloc; "{name} {at}")?)
        }
        None => Ok(format!(in alloc; "a value")?),
    }
}

/// Reads a value of T at the start of the input, from the slice and from a reader that gives one byte a call.
pub(crate) fn refusal_of<T: Deserialize>(input: &[u8], limits: &Limits, alloc: Global) -> Answer {
    Answer {
        of_slice: refusal_of_slice::<T>(input, limits, alloc),
        of_reader: refusal_of_reader::<T>(input, limits, alloc),
    }
}

// What is found in the slice.
fn refusal_of_slice<T: Deserialize>(input: &[u8], limits: &Limits, alloc: Global) -> Found {
    match from_slice_located::<T>(input, limits, alloc) {
        Ok(_) => None,
        Err(refusal) => Some(refusal),
    }
}

// What is found in the reader.
fn refusal_of_reader<T: Deserialize>(input: &[u8], limits: &Limits, alloc: Global) -> Found {
    let mut reader = ReadSource::new(OneByOne { bytes: input });
    let read: Result<T, Refusal> = from_reader_located(&mut reader, limits, alloc);
    match read {
        Ok(_) => None,
        Err(refusal) => Some(refusal),
    }
}
