//! Deliveries that are joined, and messages that are split.
use amqp_codec::Error;
use amqp_frames::{Deliveries, DeliveryError, Joined, Piece, SplitError, split};
use amqp_no_memory_calls::check;
use amqp_performatives::Transfer;
use amqp_read_write::from_slice;
use std::alloc::Global;

/// A transfer over link 0, with delivery-id 0 and a tag of one byte.
const WHOLE: [u8; 11] = [0, 0x53, 0x14, 0xc0, 6, 3, 0x43, 0x43, 0xa0, 1, 9];

/// The same, with `more`.
const FIRST: [u8; 14] = [
    0, 0x53, 0x14, 0xc0, 9, 6, 0x43, 0x43, 0xa0, 1, 9, 0x40, 0x40, 0x41,
];

/// A message that needs two frames of at most 512 bytes.
const MESSAGE: [u8; 600] = [0; 600];

/// Makes all of these, and returns whether every call went as it must.
pub(crate) fn check_all(rt: &HostRuntime) -> Result<bool, anyhow::Error> {
    let mut well = check(rt, "first transfer", "join", first_is_joined)?;
    well &= check(rt, "later transfer", "join", later_is_joined)?;
    well &= check(rt, "message", "split", message_is_split)?;
    Ok(well)
}

fn first_is_joined(alloc: Global) -> Result<bool, Error> {
    let transfer = from_slice::<Transfer>(&WHOLE, alloc)?;
    let mut deliveries = Deliveries::new(3);
    let joined = deliveries.join(transfer, b"ab", alloc);
    let kept = deliveries.unfinished.is_none();
    drop(deliveries);
    is_joined(joined, b"ab", kept)
}

fn later_is_joined(alloc: Global) -> Result<bool, Error> {
    let mut deliveries = Deliveries::new(3);
    let joined = join_both(&mut deliveries, alloc);
    drop(deliveries);
    joined
}

fn join_both(deliveries: &mut Deliveries, alloc: Global) -> Result<bool, Error> {
    let first = from_slice::<Transfer>(&FIRST, alloc)?;
    if let Err(error) = deliveries.join(first, b"ab", alloc) {
        return Err(error_of(error));
    }
    let last = from_slice::<Transfer>(&WHOLE, alloc)?;
    let joined = deliveries.join(last, b"c", alloc);
    let kept = is_unfinished(deliveries, b"ab");
    is_joined(joined, b"abc", kept)
}

// Whether this has come of the delivery that is open.
fn is_unfinished(deliveries: &Deliveries, message: &[u8]) -> bool {
    match &deliveries.unfinished {
        Some(delivery) => delivery.message.as_slice() == message,
        None => false,
    }
}

// Whether the delivery is whole, and this is its message. If an allocation failed, what was there before has to be kept.
fn is_joined(
    joined: Result<Joined, DeliveryError>,
    message: &[u8],
    kept: bool,
) -> Result<bool, Error> {
    match joined {
        Ok(Joined::Whole(delivery)) => Ok(delivery.message.as_slice() == message),
        Ok(_) => Ok(false),
        Err(error) if kept => Err(error_of(error)),
        Err(_) => Ok(false),
    }
}

fn error_of(error: DeliveryError) -> Error {
    match error {
        DeliveryError::Memory => Error::Memory,
        _ => Error::InvalidValue,
    }
}

fn message_is_split(alloc: Global) -> Result<bool, Error> {
    let transfer = from_slice::<Transfer>(&WHOLE, alloc)?;
    are_two(split(transfer, &MESSAGE, 512, alloc))
}

fn are_two(pieces: Result<Vec<Piece<'_>>, SplitError>) -> Result<bool, Error> {
    match pieces {
        Ok(pieces) => Ok(pieces.len() == 2),
        Err(SplitError::Value(error)) => Err(error),
        Err(SplitError::FrameTooSmall) => Ok(false),
    }
}
