//! A value that is read in each way.
use amqp_codec::{Error, Serialize};
use amqp_no_memory_calls::{check, is_text};
use amqp_read_write::{
    Limits, from_reader, from_reader_within, from_slice_counted, from_slice_within,
};
use amqp_values::Value;
use std::alloc::Global;

/// A map of one pair, a uint under a string (Part 1, section 1.6.23).
const MAP: &[u8] = b"\xc1\x07\x02\xa1\x02kk\x52\x07";

/// Makes all these calls, and returns whether every one went as it must.
pub(crate) fn check_all(rt: &HostRuntime) -> Result<bool, anyhow::Error> {
    let mut well = check(rt, "map", "from_slice_counted", is_counted)?;
    well &= check(rt, "map", "from_slice_within", is_read_within)?;
    well &= check(rt, "map", "from_reader", is_read_from_reader)?;
    well &= check(rt, "map", "from_reader_within", is_read_from_reader_within)?;
    Ok(well)
}

// Whether the map was read, and all of its bytes.
fn is_whole<T: Serialize + Drop>(
    read: Result<(T, usize), Error>,
    alloc: Global,
) -> Result<bool, Error> {
    let (value, len) = read?;
    let is_map = is_text(Ok(value), MAP, alloc)?;
    Ok(is_map && len == MAP.len())
}

fn is_counted(alloc: Global) -> Result<bool, Error> {
    is_whole::<Value>(from_slice_counted(MAP, alloc), alloc)
}

fn is_read_within(alloc: Global) -> Result<bool, Error> {
    is_whole::<Value>(from_slice_within(MAP, &Limits::greatest(), alloc), alloc)
}

fn is_read_from_reader(alloc: Global) -> Result<bool, Error> {
    let mut reader = MAP;
    let value: Result<Value, Error> = from_reader(&mut reader, alloc);
    Ok(is_text(value, MAP, alloc)? && reader.is_empty())
}

fn is_read_from_reader_within(alloc: Global) -> Result<bool, Error> {
    let mut reader = MAP;
    let value: Result<Value, Error> = from_reader_within(&mut reader, &Limits::greatest(), alloc);
    Ok(is_text(value, MAP, alloc)? && reader.is_empty())
}
