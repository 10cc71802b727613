//! What is rewritten and printed.
use amqp_codec::{DeserializeTerm, Error};
use amqp_read_write::canonical_text;
use std::alloc::Global;
use std::fmt::Display;
use std::test::Fail;

/// Checks that the bytes with these digits are a value of the type, whose canonical text has the other digits.
pub(crate) fn rewritten<T: DeserializeTerm>(
    digits: &str,
    canonical: &str,
    alloc: Global,
) -> Result<(), Fail> {
    let input = hex::decode(alloc, digits)?;
    let (text, len) = canonical_text::<T>(input.as_slice(), alloc)?;
    if len != input.len() {
        return Err(Fail::new(format_args!("{len} bytes of {digits} are read")));
    }
    let text = hex::encode(alloc, &text)?;
    if text.as_str() != canonical {
        return Err(Fail::new(format_args!("{digits} is rewritten as {text}")));
    }
    Ok(())
}

/// Returns whether the value is printed as this text.
pub(crate) fn is_printed<T: Display + Drop>(
    made: Result<T, Error>,
    text: &str,
    alloc: Global,
) -> Result<bool, Error> {
    let value = made?;
    let printed = value.to_string(alloc)?;
    Ok(printed.as_str() == text)
}
