//! What grows by one value at a time.
use crate::calls::{check, is_text};
use amqp_codec::{Error, Serialize};
use std::alloc::Global;

/// A way in which something grows.
pub trait Growing {
    /// What the value of a number is added to.
    type Grown: Serialize + PartialEq + Drop;

    /// Returns what it is before the first.
    fn begun(alloc: Global) -> Result<Self::Grown, Error>;

    /// Adds the value of the number.
    fn grow(grown: &mut Self::Grown, number: u8, alloc: Global) -> Result<(), Error>;
}

/// Adds the values of the numbers from 0 to 4, which make the text, and returns whether every call went as it must.
pub fn check_growing<G: Growing>(
    rt: &(impl Print + AllocGlobal),
    name: &str,
    call: &str,
    text: &[u8],
) -> Result<bool, anyhow::Error> {
    check(rt, name, call, |alloc| is_grown::<G>(text, alloc))
}

// Whether the values of five numbers are added. If one finds no memory, what was there before stays.
fn is_grown<G: Growing>(text: &[u8], alloc: Global) -> Result<bool, Error> {
    let mut grown = G::begun(alloc)?;
    let mut before = G::begun(alloc)?;
    for number in 0..5u8 {
        match G::grow(&mut grown, number, alloc) {
            Ok(()) => G::grow(&mut before, number, alloc)?,
            Err(error) if grown == before => return Err(error),
            Err(_) => return Ok(false),
        }
    }
    is_text(Ok(grown), text, alloc)
}
