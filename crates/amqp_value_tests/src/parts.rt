//! What the calls of values return.
use amqp_codec::Error;
use amqp_test_helpers::{is_given_back, is_taken};
use std::cmp::Ordering;

/// Returns whether what was made is moved out of the value that holds it.
pub(crate) fn is_taken_of<V: Drop, T: TryFrom<V, Error = V> + PartialEq + Drop>(
    value: Result<V, Error>,
    wanted: Result<T, Error>,
) -> Result<bool, Error> {
    let wanted = wanted?;
    let value = value?;
    Ok(is_taken(T::try_from(value), wanted))
}

/// Returns whether the value is returned as the error, since it holds no `T`.
pub(crate) fn is_kept<T: TryFrom<V, Error = V> + Drop, V: PartialEq + Drop>(
    value: Result<V, Error>,
    wanted: Result<V, Error>,
) -> Result<bool, Error> {
    let wanted = wanted?;
    let value = value?;
    Ok(is_given_back(T::try_from(value), wanted))
}

/// Returns how the first value compares with the second.
pub(crate) fn order_of<T: Ord + Drop>(
    first: Result<T, Error>,
    second: Result<T, Error>,
) -> Result<Ordering, Error> {
    let first = first?;
    let second = second?;
    Ok(first.cmp(&second))
}
