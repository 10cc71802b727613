//! Values of types that are written by `to_vec` and read by `from_slice`.
use crate::cases::{Way, Work};
use amqp_codec::{Deserialize, Serialize};
use amqp_map_sections::ApplicationProperties;
use amqp_messages::Message;
use amqp_read_write::{from_slice, from_slice_counted, to_vec};
use amqp_sections::Data;
use amqp_simple_values::SimpleValue;
use amqp_wire::Error;
use std::alloc::Global;

/// A value that is written, or read from its canonical text.
#[derive(Drop)]
pub(crate) struct Typed<T: Drop> {
    way: Way,
    value: T,
    text: Vec<u8>,
}

impl<T: Deserialize + Serialize> Typed<T> {
    /// Returns the value with this text.
    pub(crate) fn new(way: Way, text: Vec<u8>, alloc: Global) -> Result<Typed<T>, Error> {
        let value = from_slice(&text, alloc)?;
        Ok(Typed { way, value, text })
    }
}

impl<T: Deserialize + Serialize> Work for Typed<T> {
    // How many bytes are written or read.
    fn run(&self, alloc: Global) -> Result<u64, Error> {
        match self.way {
            Way::Writing => Ok(to_vec(&self.value, alloc)?.len() as u64),
            Way::Reading => {
                let (_value, len) = from_slice_counted::<T>(&self.text, alloc)?;
                Ok(len as u64)
            }
        }
    }
}

// Application properties, so many, each a number under a short name (Part 3, section 3.2.5).
fn numbers(count: u32, alloc: Global) -> Result<ApplicationProperties, Error> {
    let mut builder = ApplicationProperties::builder(alloc);
    for index in 0..count {
        let name = format!(in alloc; "name {index}")?;
        builder = builder.insert(name, SimpleValue::Uint(index))?;
    }
    Ok(builder.build())
}

// The text of a message of these bytes, behind application properties.
fn message(
    application_properties: Option<ApplicationProperties>,
    bytes: Vec<u8>,
    alloc: Global,
) -> Result<Vec<u8>, Error> {
    let builder = Message::builder().application_properties(application_properties);
    to_vec(&builder.data(Data::from(bytes)).build(), alloc)
}

/// Returns the text of `count` application properties.
pub(crate) fn application_properties(count: u32, alloc: Global) -> Result<Vec<u8>, Error> {
    to_vec(&numbers(count, alloc)?, alloc)
}

/// Returns the text of a message with `count` application properties, and with data without bytes (Part 3, section 3.2).
pub(crate) fn message_of_properties(count: u32, alloc: Global) -> Result<Vec<u8>, Error> {
    message(Some(numbers(count, alloc)?), Vec::new(alloc), alloc)
}

/// Returns the text of a message with `length` bytes of data (Part 3, section 3.2.6).
pub(crate) fn message_of_data(length: usize, alloc: Global) -> Result<Vec<u8>, Error> {
    message(None, Vec::from_elem(alloc, 7u8, length)?, alloc)
}
