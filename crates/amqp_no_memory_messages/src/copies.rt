//! Copies of messages and of their sections (Part 3, section 3.2). Each value is read from its bytes, and copied.
use amqp_annotations::OwnedKey;
use amqp_batches::Batch;
use amqp_bodies::Body;
use amqp_codec::Error;
use amqp_map_sections::{ApplicationProperties, DeliveryAnnotations, Footer, MessageAnnotations};
use amqp_message_headers::MessageId;
use amqp_message_headers::properties::{Builder as PropertiesBuilder, Properties};
use amqp_messages::Message;
use amqp_messages::builder::Builder;
use amqp_no_memory_calls::{check, check_copy, is_builder_copied};
use amqp_sections::{AmqpSequence, AmqpValue, Data};
use amqp_values::Value;
use std::alloc::Global;

/// Delivery annotations of one pair (Part 3, section 3.2.2).
const DELIVERY_ANNOTATIONS: &[u8] = b"\x00\x53\x71\xc1\x06\x02\xa3\x01a\x52\x01";

/// Message annotations of one pair (Part 3, section 3.2.3).
const MESSAGE_ANNOTATIONS: &[u8] = b"\x00\x53\x72\xc1\x06\x02\xa3\x01a\x52\x01";

/// Properties of an address (Part 3, section 3.2.4).
const PROPERTIES: &[u8] = b"\x00\x53\x73\xc0\x06\x03\x40\x40\xa1\x01a";

/// Application properties of one pair (Part 3, section 3.2.5).
const APPLICATION_PROPERTIES: &[u8] = b"\x00\x53\x74\xc1\x06\x02\xa1\x01a\x52\x01";

/// A section of data (Part 3, section 3.2.6).
const DATA: &[u8] = b"\x00\x53\x75\xa0\x01a";

/// A sequence of one string (Part 3, section 3.2.7).
const SEQUENCE: &[u8] = b"\x00\x53\x76\xc0\x04\x01\xa1\x01a";

/// A value that is a string (Part 3, section 3.2.8).
const VALUE: &[u8] = b"\x00\x53\x77\xa1\x01a";

/// A footer of one pair (Part 3, section 3.2.9).
const FOOTER: &[u8] = b"\x00\x53\x78\xc1\x06\x02\xa3\x01a\x52\x01";

/// A section of data and a footer.
const MESSAGE: &[u8] = b"\x00\x53\x75\xa0\x01a\x00\x53\x78\xc1\x01\x00";

/// Copies all of these, and returns whether every call went as it must.
pub(crate) fn check_all(rt: &HostRuntime) -> Result<bool, anyhow::Error> {
    let mut well = check_sections(rt)?;
    well &= check_bodies(rt)?;
    well &= check_copy::<OwnedKey>(rt, "key", b"\xa3\x01a")?;
    well &= check_copy::<MessageId>(rt, "message identifier", b"\xa1\x01a")?;
    well &= check(rt, "builder of properties", "clone", are_properties_copied)?;
    well &= check(rt, "builder of a message", "clone", is_message_copied)?;
    Ok(well)
}

fn check_sections(rt: &HostRuntime) -> Result<bool, anyhow::Error> {
    let mut well = check_copy::<DeliveryAnnotations>(
        rt,
        "delivery annotations",
        DELIVERY_ANNOTATIONS,
    )?;
    well &= check_copy::<MessageAnnotations>(rt, "message annotations", MESSAGE_ANNOTATIONS)?;
    well &= check_copy::<Properties>(rt, "properties", PROPERTIES)?;
    well &= check_copy::<ApplicationProperties>(
        rt,
        "application properties",
        APPLICATION_PROPERTIES,
    )?;
    well &= check_copy::<Footer>(rt, "footer", FOOTER)?;
    Ok(well)
}

fn check_bodies(rt: &HostRuntime) -> Result<bool, anyhow::Error> {
    let mut well = check_copy::<Data>(rt, "data", DATA)?;
    well &= check_copy::<AmqpSequence<Value>>(rt, "sequence", SEQUENCE)?;
    well &= check_copy::<AmqpValue<Value>>(rt, "value of a message", VALUE)?;
    well &= check_copy::<Batch<Data>>(rt, "batch", DATA)?;
    well &= check_copy::<Body<Value>>(rt, "body", SEQUENCE)?;
    well &= check_copy::<Message<Data>>(rt, "message", MESSAGE)?;
    Ok(well)
}

// A builder of properties that have an address.
fn properties_builder(alloc: Global) -> Result<PropertiesBuilder, Error> {
    let address = String::from_str(alloc, "a")?;
    Ok(Properties::builder().to(address))
}

fn are_properties_copied(alloc: Global) -> Result<bool, Error> {
    is_builder_copied(properties_builder(alloc), PropertiesBuilder::build)
}

// A builder of a message that has a body.
fn message_builder(alloc: Global) -> Result<Builder<Data>, Error> {
    let data = Data::copy_of(b"a", alloc)?;
    Ok(Builder::new().data(data))
}

fn is_message_copied(alloc: Global) -> Result<bool, Error> {
    is_builder_copied(message_builder(alloc), Builder::build)
}
