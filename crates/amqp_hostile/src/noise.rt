//! Inputs with one byte changed. Whatever is read from one is read again from its canonical text, which is written again unchanged.
use crate::inputs::{BATCH, HEADER, NO_BODY, RECEIVED, SEVEN_HEADERS, SIX_HEADERS};
use fe2o3_amqp_types::codec::{Canonical, Deserialize, Error, from_slice_counted, to_vec};
use fe2o3_amqp_types::messaging::{AmqpValue, Batch, Body, Data, Header, Message, Received};
use fe2o3_amqp_types::primitives::Value;
use std::alloc::Global;

/// A message whose body may be absent.
type Absent = Message<Option<String>>;

/// What an input is read as.
trait Checked: Deserialize + Drop + Sized {
    /// Returns whether the value is written, and read again, as it must be. For a type that is only read, it returns true.
    fn is_stable(self, alloc: Global) -> Result<bool, Error>;
}

impl Checked for Received {
    fn is_stable(self, alloc: Global) -> Result<bool, Error> {
        is_rewritten(self, alloc)
    }
}

impl Checked for Header {
    fn is_stable(self, alloc: Global) -> Result<bool, Error> {
        is_rewritten(self, alloc)
    }
}

impl Checked for Message<AmqpValue<Value>> {
    fn is_stable(self, alloc: Global) -> Result<bool, Error> {
        is_rewritten(self, alloc)
    }
}

impl Checked for Message<Batch<Data>> {
    fn is_stable(self, alloc: Global) -> Result<bool, Error> {
        is_rewritten(self, alloc)
    }
}

impl Checked for Message<Body<Value>> {
    fn is_stable(self, alloc: Global) -> Result<bool, Error> {
        let text = to_vec(&self, alloc);
        is_text_of(text, read_again(self), alloc)
    }
}

impl Checked for Message<Value> {
    fn is_stable(self, _alloc: Global) -> Result<bool, Error> {
        drop(self);
        Ok(true)
    }
}

impl Checked for Absent {
    fn is_stable(self, _alloc: Global) -> Result<bool, Error> {
        drop(self);
        Ok(true)
    }
}

// The message with this body in place of its own.
fn with_body<B: Drop>(message: Message<B>, body: B) -> Message<B> {
    let mut message = message;
    message.body = body;
    message
}

// What the message is read again as: a body that isn't there is written as a null.
fn read_again(message: Message<Body<Value>>) -> Message<Body<Value>> {
    if message.body.is_empty() {
        with_body(message, Body::Value(AmqpValue(Value::Null)))
    } else {
        message
    }
}

/// Changes each byte of all inputs, and returns whether none misbehaves.
pub(crate) fn check_all(rt: &HostRuntime) -> Result<bool, anyhow::Error> {
    let mut well = check_row::<Received>(rt, "received", RECEIVED)?;
    well &= check_row::<Header>(rt, "header", HEADER)?;
    well &= check_row::<Message<Body<Value>>>(rt, "message without a body", NO_BODY)?;
    well &= check_row::<Message<AmqpValue<Value>>>(rt, "message of a value", NO_BODY)?;
    well &= check_row::<Message<Batch<Data>>>(rt, "message of three data", BATCH)?;
    well &= check_row::<Message<Body<Value>>>(rt, "message of seven headers", SEVEN_HEADERS)?;
    well &= check_row::<Message<Body<Value>>>(rt, "message of six headers", SIX_HEADERS)?;
    well &= check_read_only(rt)?;
    Ok(well)
}

// Whether none misbehaves that is read as a type that can't be written.
fn check_read_only(rt: &HostRuntime) -> Result<bool, anyhow::Error> {
    let mut well = check_row::<Message<Value>>(rt, "message of any value", NO_BODY)?;
    well &= check_row::<Absent>(rt, "message of a string that may be absent", NO_BODY)?;
    well &= check_row::<Absent>(rt, "the same of seven headers", SEVEN_HEADERS)?;
    well &= check_row::<Absent>(rt, "the same of six headers", SIX_HEADERS)?;
    Ok(well)
}

// Whether no change of one byte misbehaves. One that does is printed, and then how many there are.
fn check_row<T: Checked>(
    rt: &HostRuntime,
    name: &str,
    digits: &str,
) -> Result<bool, anyhow::Error> {
    let row = hex::decode(rt.alloc(), digits)?;
    let mut ill = 0u32;
    for place in 0..row.len() {
        let mut input = row.clone()?;
        for byte in 0..=255u8 {
            if let Some(changed) = input.get_mut(place) {
                *changed = byte;
            }
            if !behaves::<T>(input.as_slice(), rt.alloc()) {
                ill = ill.saturating_add(1);
                println!(rt; "{name}: misbehaves with the byte {byte:02x} in place {place}")?;
            }
        }
    }
    let inputs = row.len().saturating_mul(256);
    println!(rt; "{name}: {inputs} inputs with a byte changed, {ill} misbehave")?;
    Ok(ill == 0)
}

// Whether the input is refused, though not because memory ran out or a reader failed; or read, and then written and read again as it must.
fn behaves<T: Checked>(input: &[u8], alloc: Global) -> bool {
    let read: Result<(T, usize), Error> = from_slice_counted(input, alloc);
    match read {
        Ok((value, len)) => len <= input.len() && value.is_stable(alloc) == Ok(true),
        Err(Error::Memory | Error::Read(_)) => false,
        Err(_) => true,
    }
}

// Whether the value's text is read to its end, as the value, and written again unchanged.
fn is_rewritten<T: Canonical + PartialEq + Drop>(value: T, alloc: Global) -> Result<bool, Error> {
    let text = to_vec(&value, alloc);
    is_text_of(text, value, alloc)
}

// Whether the text that was written is read to its end, as the value, and written again unchanged.
fn is_text_of<T: Canonical + PartialEq + Drop>(
    written: Result<Vec<u8>, Error>,
    value: T,
    alloc: Global,
) -> Result<bool, Error> {
    let text = written?;
    let (again, len): (T, usize) = from_slice_counted(text.as_slice(), alloc)?;
    let text_again = to_vec(&again, alloc)?;
    Ok(len == text.len() && text_again == text && again == value)
}
