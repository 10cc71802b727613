//! Values that are made of bodies and of messages, also of those whose items may be absent.
use amqp_batches::Batch;
use amqp_bodies::{Body, FromBody, FromEmptyBody, TransposeOption};
use amqp_codec::{Error, Serialize};
use amqp_lazy::LazyValue;
use amqp_messages::FromMessage;
use amqp_messages::builder::Builder;
use amqp_no_memory_calls::{check, is_text};
use amqp_read_write::from_slice;
use amqp_sections::AmqpSequence;
use std::alloc::Global;

/// A sequence of two ints (Part 3, section 3.2.7).
const SEQUENCE: &[u8] = b"\x00\x53\x76\xc0\x05\x02\x54\x01\x54\x02";

/// Ints that may be absent.
type Absent = Option<AmqpSequence<Option<i32>>>;

/// Makes all these calls, and returns whether every one went as it must.
pub(crate) fn check_all(rt: &HostRuntime) -> Result<bool, anyhow::Error> {
    let mut well = check(rt, "body", "from_body", is_made_of_a_body)?;
    well &= check(rt, "body", "from_empty_body", is_made_of_nothing)?;
    well &= check(rt, "body", "from_message", is_made_of_a_message)?;
    well &= check(rt, "sequence", "transpose", is_sequence_transposed)?;
    well &= check(rt, "batch of sequences", "transpose", is_batch_transposed)?;
    well &= check(rt, "body of sequences", "transpose", is_body_transposed)?;
    Ok(well)
}

// Whether the sequence is there.
fn is_sequence<T: Serialize + Drop>(
    made: Result<Option<T>, Error>,
    alloc: Global,
) -> Result<bool, Error> {
    match made? {
        Some(sequence) => is_text(Ok(sequence), SEQUENCE, alloc),
        None => Ok(false),
    }
}

fn is_made_of_a_body(alloc: Global) -> Result<bool, Error> {
    let absent: Absent = from_slice(SEQUENCE, alloc)?;
    let made = <Option<AmqpSequence<i32>> as FromBody>::from_body(absent, alloc);
    is_sequence(made, alloc)
}

fn is_made_of_nothing(alloc: Global) -> Result<bool, Error> {
    let value = <LazyValue as FromEmptyBody>::from_empty_body(alloc)?;
    Ok(value.as_slice() == [0x40].as_slice())
}

fn is_made_of_a_message(alloc: Global) -> Result<bool, Error> {
    let absent: Absent = from_slice(SEQUENCE, alloc)?;
    let message = Builder::new().body(absent).build();
    let made = <Option<AmqpSequence<i32>> as FromMessage<Absent>>::from_message(message, alloc);
    is_sequence(made, alloc)
}

fn is_sequence_transposed(alloc: Global) -> Result<bool, Error> {
    let absent: Absent = from_slice(SEQUENCE, alloc)?;
    is_sequence(AmqpSequence::<i32>::transpose(absent, alloc), alloc)
}

fn is_batch_transposed(alloc: Global) -> Result<bool, Error> {
    let absent = from_slice(SEQUENCE, alloc)?;
    is_sequence(
        Batch::<AmqpSequence<i32>>::transpose(Some(absent), alloc),
        alloc,
    )
}

fn is_body_transposed(alloc: Global) -> Result<bool, Error> {
    let absent = from_slice(SEQUENCE, alloc)?;
    is_sequence(Body::<i32>::transpose(absent, alloc), alloc)
}
