//! Types that are read without allocating, and how long terms are. Nothing is allocated here, so no allocation can fail.
use crate::inputs::{ACCEPTED_STATES, ATTACH, UINTS};
use amqp_no_memory_calls::{Outcome, print_outcome};
use fe2o3_amqp_types::codec::{Deserialize, from_slice, from_slice_counted, term_len};
use fe2o3_amqp_types::definitions::{ReceiverSettleMode, Role, SenderSettleMode};
use fe2o3_amqp_types::messaging::{
    Accepted, DeleteOnClose, DeleteOnNoLinks, DeleteOnNoLinksOrMessages, DeleteOnNoMessages,
    Header, Received, Released,
};
use fe2o3_amqp_types::primitives::{Byte, Int, Long, Short, Ubyte, Uint, Ulong, Ushort};
use std::alloc::Global;

/// Reads values of all these types, and returns whether every call went as it must.
pub(crate) fn check_all(rt: &HostRuntime) -> Result<bool, anyhow::Error> {
    let alloc = rt.alloc();
    let mut well = print_read(rt, "whole numbers", are_numbers_read(alloc))?;
    well &= print_read(rt, "restricted numbers", are_restricted_read(alloc))?;
    well &= print_read(rt, "composites without memory", are_composites_read(alloc))?;
    well &= print_read(rt, "lengths of terms", are_lengths_found())?;
    Ok(well)
}

fn print_read(rt: &HostRuntime, name: &str, are_read: bool) -> Result<bool, anyhow::Error> {
    let outcome = if are_read {
        Outcome::Answered
    } else {
        Outcome::Otherwise
    };
    print_outcome(rt, name, "no growth", outcome)
}

// Whether the whole input is read as a value of the type.
fn is_read<T: Deserialize>(input: &[u8], alloc: Global) -> bool {
    let read: Result<T, _> = from_slice(input, alloc);
    let counted: Result<(T, usize), _> = from_slice_counted(input, alloc);
    match counted {
        Ok((_value, len)) => read.is_ok() && len == input.len() && term_len(input) == Ok(len),
        Err(_) => false,
    }
}

fn are_numbers_read(alloc: Global) -> bool {
    is_read::<Ubyte>(b"\x50\x07", alloc)
        && is_read::<Ushort>(b"\x60\x01\x07", alloc)
        && is_read::<Uint>(b"\x70\x00\x00\x01\x00", alloc)
        && is_read::<Ulong>(b"\x80\x00\x00\x00\x00\x00\x00\x01\x00", alloc)
        && is_read::<Byte>(b"\x51\xff", alloc)
        && is_read::<Short>(b"\x61\xff\x07", alloc)
        && is_read::<Int>(b"\x54\xff", alloc)
        && is_read::<Long>(b"\x55\xff", alloc)
}

fn are_restricted_read(alloc: Global) -> bool {
    is_read::<Role>(b"\x56\x01", alloc)
        && is_read::<SenderSettleMode>(b"\x50\x02", alloc)
        && is_read::<ReceiverSettleMode>(b"\x50\x01", alloc)
}

fn are_composites_read(alloc: Global) -> bool {
    is_read::<Accepted>(b"\x00\xa3\x12amqp:accepted:list\xc0\x01\x00", alloc)
        && is_read::<Received>(b"\x00\x53\x23\xc0\x05\x02\x52\x09\x53\x0d", alloc)
        && is_read::<Released>(b"\x00\x53\x26\x45", alloc)
        && is_read::<Header>(b"\x00\x53\x70\xc0\x07\x05\x42\x50\x04\x40\x42\x43", alloc)
        && is_read::<DeleteOnClose>(b"\x00\x53\x2b\x45", alloc)
        && is_read::<DeleteOnNoLinks>(b"\x00\x53\x2c\xc0\x01\x00", alloc)
        && is_read::<DeleteOnNoMessages>(b"\x00\x53\x2d\x45", alloc)
        && is_read::<DeleteOnNoLinksOrMessages>(b"\x00\x53\x2e\x45", alloc)
}

fn are_lengths_found() -> bool {
    [ATTACH, UINTS, ACCEPTED_STATES]
        .iter()
        .all(|term| term_len(*term) == Ok(term.len()))
}
