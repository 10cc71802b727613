//! What a value is written as and read from, and why it isn't written.
use amqp_codec::{Deserialize, Serialize};
use amqp_test_helpers::{check_written, is, read};
use std::alloc::Global;
use std::test::Fail;

/// Checks that the text is read as the value.
pub(crate) fn check_read<T: Deserialize + PartialEq>(
    digits: &str,
    value: T,
    alloc: Global,
) -> Result<(), Fail> {
    if is(read(digits, alloc)?, value) {
        Ok(())
    } else {
        Err(Fail::new(format_args!("{digits} is read otherwise")))
    }
}

/// Checks that the value is written so, and that this is read as the value.
pub(crate) fn check_both_ways<T: Serialize + Deserialize + PartialEq>(
    value: T,
    digits: &str,
    alloc: Global,
) -> Result<(), Fail> {
    check_written(&value, digits, alloc)?;
    check_read(digits, value, alloc)
}
