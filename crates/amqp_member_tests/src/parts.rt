//! What calls return.
use amqp_codec::Error;

/// Returns whether two calls returned the same value, and a copy of it is equal to it.
pub(crate) fn are_equal_and_copied<T: Clone + PartialEq + Drop>(
    made: Result<T, Error>,
    wanted: Result<T, Error>,
) -> Result<bool, Error> {
    let made = made?;
    let wanted = wanted?;
    let copy = made.clone()?;
    Ok(made == wanted && copy == made)
}

/// Returns whether a call that takes a value out returned this one.
pub(crate) fn is_taken<T: PartialEq + Drop, E: Drop>(
    answer: Result<T, E>,
    wanted: Result<T, Error>,
) -> Result<bool, Error> {
    let wanted = wanted?;
    match answer {
        Ok(taken) => Ok(taken == wanted),
        Err(_) => Ok(false),
    }
}
