//! Small values, from which the fields of greater ones are made.
use amqp_codec::{Error as CodecError, Symbol};
use amqp_containers::Array;
use amqp_errors::{Error, ErrorCondition, Fields};
use amqp_primitives::Binary;
use amqp_values::Value;
use std::alloc::Global;

/// Returns a string with a copy of the text.
pub fn text_of(text: &str, alloc: Global) -> Result<String, CodecError> {
    Ok(String::from_str(alloc, text)?)
}

/// Returns a binary with a copy of the bytes.
pub fn binary_of(bytes: &[u8], alloc: Global) -> Result<Binary, CodecError> {
    Ok(Binary::from(Vec::from_slice(alloc, bytes)?))
}

/// Returns a symbol with a copy of the text, which has to be ASCII.
pub fn symbol_of(text: &str, alloc: Global) -> Result<Symbol, CodecError> {
    Ok(Symbol::from_str_in(text, alloc)?)
}

/// Returns an array of one symbol.
pub fn symbols_of(text: &str, alloc: Global) -> Result<Array<Symbol>, CodecError> {
    let mut symbols = Array::from(Vec::new(alloc));
    symbols.push(symbol_of(text, alloc)?)?;
    Ok(symbols)
}

/// Returns an array of two symbols.
pub fn two_symbols_of(
    first: &str,
    second: &str,
    alloc: Global,
) -> Result<Array<Symbol>, CodecError> {
    let mut symbols = symbols_of(first, alloc)?;
    symbols.push(symbol_of(second, alloc)?)?;
    Ok(symbols)
}

/// Returns a map of one pair.
pub fn fields_of(text: &str, value: Value, alloc: Global) -> Result<Fields, CodecError> {
    let key = symbol_of(text, alloc)?;
    let mut fields = Fields::new(alloc);
    fields.insert(key, value)?;
    Ok(fields)
}

/// Returns a map of one pair, whose value is a string.
pub fn text_fields_of(key: &str, text: &str, alloc: Global) -> Result<Fields, CodecError> {
    let value = Value::String(text_of(text, alloc)?);
    fields_of(key, value, alloc)
}

/// Returns an error of an extension's own, without more information.
pub fn error_of(condition: &str, description: &str, alloc: Global) -> Result<Error, CodecError> {
    Ok(Error {
        condition: ErrorCondition::Custom(symbol_of(condition, alloc)?),
        description: Some(text_of(description, alloc)?),
        info: None,
    })
}
