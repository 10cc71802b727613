//! Copies of values and of builders.
use crate::calls::check;
use amqp_codec::{Deserialize, Error};
use amqp_read_write::from_slice;
use amqp_test_helpers::{is, is_copied};

/// Copies the value at the start of the bytes, and returns whether the call went as it must.
pub fn check_copy<T: Deserialize + Clone + PartialEq + Drop>(
    rt: &(impl Print + AllocGlobal),
    name: &str,
    input: &[u8],
) -> Result<bool, anyhow::Error> {
    check(rt, name, "clone", |alloc| {
        is_copied::<T>(from_slice(input, alloc))
    })
}

/// Returns whether a copy of the builder builds the same value.
pub fn is_builder_copied<B: Clone + Drop, T: PartialEq + Drop, F: Fn(B) -> T>(
    made: Result<B, Error>,
    build: F,
) -> Result<bool, Error>
    requires { F.IsAlwaysCallable build }
{
    let builder = made?;
    let copy = builder.clone()?;
    Ok(is(build(copy), build(builder)))
}
