//! Values that are read, measured and written.
use crate::inputs::{
    ACCEPTED_STATES, ATTACH, ATTACH_TEXT, BATCH, MESSAGE, MESSAGE_TEXT, UINTS, UINTS_TEXT,
};
use amqp_no_memory_calls::{Outcome, check, print_outcome};
use fe2o3_amqp_types::codec::{
    Canonical, Deserialize, Error, Serialize, append_to_vec, canonical_text, encoded_len,
    from_slice, to_vec,
};
use fe2o3_amqp_types::messaging::{Accepted, Batch, Data, Message};
use fe2o3_amqp_types::performatives::Attach;
use fe2o3_amqp_types::primitives::{Array, Uint};
use std::alloc::Global;

/// A call that is made with a value.
#[derive(Clone, Copy)]
enum Call {
    EncodedLen,
    ToVec,
    AppendToVec,
    AppendBehind,
    CanonicalText,
}

const CALLS: &[(Call, &str)] = &[
    (Call::EncodedLen, "encoded_len"),
    (Call::ToVec, "to_vec"),
    (Call::AppendToVec, "append_to_vec"),
    (Call::AppendBehind, "append_to_vec behind others"),
    (Call::CanonicalText, "canonical_text"),
];

/// What is in a buffer before a text is appended.
const OTHERS: [u8; 2] = [0xaa, 0xbb];

/// Reads, measures and writes all values, and returns whether every call went as it must.
pub(crate) fn check_all(rt: &HostRuntime) -> Result<bool, anyhow::Error> {
    let mut well = check_row::<Attach>(rt, "attach", ATTACH, ATTACH_TEXT)?;
    well &= check_row::<Message<Batch<Data>>>(rt, "message of three data", BATCH, BATCH)?;
    well &= check_row::<Message<Data>>(rt, "message of five sections", MESSAGE, MESSAGE_TEXT)?;
    well &= check_row::<Array<Uint>>(rt, "array of uints", UINTS, UINTS_TEXT)?;
    well &= check_row::<Array<Accepted>>(
        rt,
        "array of accepted states",
        ACCEPTED_STATES,
        ACCEPTED_STATES,
    )?;
    Ok(well)
}

// Whether each call goes as it must over an input, and the value that it is read as.
fn check_row<T: Canonical>(
    rt: &HostRuntime,
    name: &str,
    input: &[u8],
    text: &[u8],
) -> Result<bool, anyhow::Error> {
    let (value, outcome) = value_read::<T>(input, rt.alloc())?;
    let mut well = print_outcome(rt, name, "from_slice", outcome)?;
    for (call, called) in CALLS {
        well &= check(rt, name, *called, |alloc| {
            is_answered(*call, &value, input, text, alloc)
        })?;
    }
    Ok(well)
}

// The value that the input begins with, read again if a growth was refused.
fn value_read<T: Deserialize>(input: &[u8], alloc: Global) -> Result<(T, Outcome), Error> {
    match from_slice::<T>(input, alloc) {
        Err(Error::Memory) => Ok((from_slice::<T>(input, alloc)?, Outcome::OutOfMemory)),
        read => Ok((read?, Outcome::Answered)),
    }
}

// Whether the call returns the text or its length. A refusal that changes a buffer is no right answer.
fn is_answered<T: Canonical>(
    call: Call,
    value: &T,
    input: &[u8],
    text: &[u8],
    alloc: Global,
) -> Result<bool, Error> {
    match call {
        Call::EncodedLen => Ok(encoded_len(value, alloc)? == text.len()),
        Call::ToVec => Ok(to_vec(value, alloc)?.as_slice() == text),
        Call::AppendToVec => is_appended(value, Vec::new(alloc), text, alloc),
        Call::AppendBehind => is_appended(value, OTHERS.to_vec(alloc)?, text, alloc),
        Call::CanonicalText => {
            let (written, len) = canonical_text::<T>(input, alloc)?;
            Ok(written.as_slice() == text && len == input.len())
        }
    }
}

// Whether the text is appended to the buffer. If it is refused, the buffer is as it was.
fn is_appended<T: Serialize>(
    value: &T,
    buffer: Vec<u8>,
    text: &[u8],
    alloc: Global,
) -> Result<bool, Error> {
    let mut buffer = buffer;
    let before = buffer.len();
    let outcome = append_to_vec(value, &mut buffer, alloc);
    let (others, appended) = buffer
        .as_slice()
        .split_at_checked(before)
        .unwrap_or((&[], &[]));
    let is_kept = others == OTHERS.get(..before).unwrap_or(&[]);
    match outcome {
        Ok(len) => Ok(is_kept && appended == text && len == text.len()),
        Err(error) if is_kept && appended.is_empty() => Err(error),
        Err(_) => Ok(false),
    }
}
