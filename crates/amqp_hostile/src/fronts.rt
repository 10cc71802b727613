//! Inputs that are cut. Each proper prefix of a term is refused with `Cut`, and so is each prefix of a message that doesn't end after a
//! whole section.
use crate::inputs::{ATTACH, BATCH, DISPOSITION, OPEN, OPEN_WITH_CAPABILITIES, RECEIVED};
use fe2o3_amqp_types::codec::{Deserialize, Error, from_slice_counted, term_len};
use fe2o3_amqp_types::messaging::{Batch, Data, Message, Received};
use fe2o3_amqp_types::performatives::{Attach, Disposition, Open};
use std::alloc::Global;

/// Cuts off the ends of all inputs, and returns whether all prefixes come to what they must.
pub(crate) fn check_all(rt: &HostRuntime) -> Result<bool, anyhow::Error> {
    let mut well = check_term::<Received>(rt, "received", RECEIVED)?;
    well &= check_term::<Disposition>(rt, "disposition", DISPOSITION)?;
    well &= check_term::<Attach>(rt, "attach", ATTACH)?;
    well &= check_term::<Open>(rt, "open", OPEN)?;
    well &= check_term::<Open>(rt, "open with capabilities", OPEN_WITH_CAPABILITIES)?;
    well &= check_message(rt)?;
    Ok(well)
}

// Whether each proper prefix of a term is cut, and the whole isn't. A prefix that isn't is printed, and then how many there are.
fn check_term<T: Deserialize>(
    rt: &HostRuntime,
    name: &str,
    digits: &str,
) -> Result<bool, anyhow::Error> {
    let input = hex::decode(rt.alloc(), digits)?;
    let whole = input.as_slice();
    let mut cut = 0usize;
    for len in 0..whole.len() {
        let front = whole.get(..len).unwrap_or(whole);
        if length_read::<T>(front, rt.alloc()) == Err(Error::Cut)
            && term_len(front) == Err(Error::Cut)
        {
            cut = cut.saturating_add(1);
        } else {
            println!(rt; "{name}: the first {len} bytes are not cut")?;
        }
    }
    let fronts = whole.len();
    println!(rt; "{name}: {fronts} proper fronts, {cut} cut")?;
    Ok(
        cut == fronts
            && length_read::<T>(whole, rt.alloc()) == Ok(fronts)
            && term_len(whole) == Ok(fronts),
    )
}

// How many bytes the value at the start of the input takes, or why there is none.
fn length_read<T: Deserialize>(input: &[u8], alloc: Global) -> Result<usize, Error> {
    let (_value, len): (T, usize) = from_slice_counted(input, alloc)?;
    Ok(len)
}

// What a prefix of the message must come to: no body after nothing or after the header, a message with as many sections of data as are
// whole, or `Cut`.
fn wanted(len: usize) -> Result<usize, Error> {
    match len {
        0 | 4 => Err(Error::EmptyBody),
        18 => Ok(1),
        32 => Ok(2),
        46 => Ok(3),
        _ => Err(Error::Cut),
    }
}

// What the closure says of the value that was read.
fn asked<T: Drop, F: Fn(&T) -> usize>(
    read: Result<(T, usize), Error>,
    ask: F,
) -> Result<usize, Error>
    requires { F.IsAlwaysCallable ask }
{
    let (value, _len) = read?;
    Ok(ask(&value))
}

// How many sections of data the message has that the input is, or why it is none.
fn sections_read(input: &[u8], alloc: Global) -> Result<usize, Error> {
    let read: Result<(Message<Batch<Data>>, usize), Error> = from_slice_counted(input, alloc);
    asked(read, |message| message.body.len())
}

// Whether each proper prefix of the message comes to what it must. One that doesn't is printed, and then how many there are.
fn check_message(rt: &HostRuntime) -> Result<bool, anyhow::Error> {
    let input = hex::decode(rt.alloc(), BATCH)?;
    let whole = input.as_slice();
    let (mut cut, mut empty, mut read, mut other) = (0u32, 0u32, 0u32, 0u32);
    for len in 0..whole.len() {
        let found = sections_read(whole.get(..len).unwrap_or(whole), rt.alloc());
        if found != wanted(len) {
            other = other.saturating_add(1);
            continue;
        }
        match found {
            Ok(_) => read = read.saturating_add(1),
            Err(Error::Cut) => cut = cut.saturating_add(1),
            Err(_) => empty = empty.saturating_add(1),
        }
    }
    let fronts = whole.len();
    println!(rt;
        "message of three data: {fronts} proper fronts, {cut} cut, {empty} without a body, {read} read, {other} otherwise"
    )?;
    Ok(other == 0 && sections_read(whole, rt.alloc()) == Ok(3))
}
