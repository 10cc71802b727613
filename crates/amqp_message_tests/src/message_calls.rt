//! Messages by default, copied, through wrappers and from readers. The digits are written out by the standard's tables.
use amqp_batches::Batch;
use amqp_bodies::{Body, FromBody};
use amqp_codec::{Deserialize, Error, Serialize};
use amqp_messages::builder::Builder;
use amqp_messages::wrappers::{Deserializable, Serializable};
use amqp_messages::{DecodeIntoMessage, FromMessage, Message};
use amqp_sections::Data;
use amqp_test_helpers::{are_equal, check_refused, check_written, is, is_copied, is_refused, read};
use amqp_values::Value;
use std::alloc::Global;
use std::test::Fail;

// A default header, three sections of data of nine bytes each, and a footer without pairs.
const THREE_DATA: &str =
    "00537045005375a009010203040506070809005375a009010203040506070809005375a009010203040506070809005378c10100";

// A default header and default properties.
const NO_BODY: &str = "0053704500537345";

fn is_one_null(message: Message<Value>) -> bool {
    message.sections() == 1 && message.body == Value::Null
}

#[test]
fn messages_by_default(rt: HostRuntime) {
    assert!(rt; is_one_null(Message::default()));
    let built: Builder<Value> = Builder::default();
    assert!(rt; is(built.build(), Message::default()));
}

#[test]
fn a_copy_of_a_message(rt: HostRuntime) -> Result<(), Fail> {
    let message: Message<Batch<Data>> = read(THREE_DATA, rt.alloc())?;
    assert!(rt; is_copied(Ok(message))?);
    Ok(())
}

// The value is written as the bytes with these digits by the wrapper, be it lent or moved.
fn check_wrapped<T: Serialize + Drop>(value: T, digits: &str, alloc: Global) -> Result<(), Fail> {
    check_written(&Serializable(&value), digits, alloc)?;
    check_written(&Serializable(value), digits, alloc)
}

#[test]
fn written_through_a_wrapper(rt: HostRuntime) -> Result<(), Fail> {
    let alloc = rt.alloc();
    let message: Message<Batch<Data>> = read(THREE_DATA, alloc)?;
    check_wrapped(message, THREE_DATA, alloc)
}

// Whether the bytes with these digits are one value, in the wrapper and without it.
fn is_unwrapped<T: Deserialize + PartialEq>(digits: &str, alloc: Global) -> Result<bool, Fail> {
    let Deserializable(value): Deserializable<T> = read(digits, alloc)?;
    let wanted = read(digits, alloc)?;
    Ok(value == wanted)
}

#[test]
fn read_through_a_wrapper(rt: HostRuntime) -> Result<(), Fail> {
    let alloc = rt.alloc();
    assert!(rt; is_unwrapped::<Message<Batch<Data>>>(THREE_DATA, alloc)?);
    check_refused::<Deserializable<Message<Data>>>(NO_BODY, Error::EmptyBody, alloc)
}

// The message that a reader of the bytes with these digits comes to.
fn from_reader<B: FromBody>(
    digits: &str,
    alloc: Global,
) -> Result<Result<Message<B>, Error>, Fail> {
    let input = hex::decode(alloc, digits)?;
    let mut reader = input.as_slice();
    Ok(B::decode_message_from_reader(&mut reader, alloc))
}

fn body_of<B: Drop>(message: Result<Message<B>, Error>) -> Result<B, Error> {
    let message = message?;
    Ok(message.body)
}

fn has_no_body(message: Result<Message<Body<Value>>, Error>) -> Result<bool, Error> {
    let message = message?;
    Ok(message.body.is_empty() && message.sections() == 3)
}

#[test]
fn messages_from_readers(rt: HostRuntime) -> Result<(), Fail> {
    let alloc = rt.alloc();
    let body = body_of(from_reader::<Data>("005375a00161005375a00162", alloc)?);
    assert!(rt; are_equal(body, Data::copy_of(b"b", alloc))?);
    assert!(rt; is_refused(from_reader::<Data>(NO_BODY, alloc)?, Error::EmptyBody));
    assert!(rt; has_no_body(from_reader(NO_BODY, alloc)?)?);
    Ok(())
}

fn length_of(message: Message<Batch<Data>>, alloc: Global) -> Result<usize, Error> {
    let batch = <Batch<Data> as FromMessage<Batch<Data>>>::from_message(message, alloc)?;
    Ok(batch.len())
}

#[test]
fn values_from_messages(rt: HostRuntime) -> Result<(), Fail> {
    let message: Message<Batch<Data>> = read(THREE_DATA, rt.alloc())?;
    assert!(rt; length_of(message, rt.alloc())? == 3);
    Ok(())
}
