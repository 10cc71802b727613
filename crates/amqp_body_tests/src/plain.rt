//! Values as the bodies of messages (Part 3, section 3.2.8). The digits are written out by the standard's tables.
use amqp_batches::Batch;
use amqp_bodies::{AsBodyRef, Body, FromBody, IntoBody};
use amqp_codec::{Error, Symbol};
use amqp_containers::Array;
use amqp_lazy::LazyValue;
use amqp_maps::OrderedMap;
use amqp_messages::Message;
use amqp_primitives::{Binary, Dec32, Dec64, Dec128, SymbolRef, Timestamp, Uuid};
use amqp_read_write::from_slice_counted;
use amqp_sections::{AmqpSequence, AmqpValue, Data};
use amqp_test_helpers::{check_made, check_refused, check_written, is};
use amqp_values::Value;
use std::alloc::Global;
use std::borrow::CowStr;
use std::collections::BTreeMap;
use std::test::Fail;

// The body of the message with these digits.
fn body<B: FromBody>(digits: &str, alloc: Global) -> Result<B, Fail> {
    let input = hex::decode(alloc, digits)?;
    let (message, _len): (Message<B>, usize) = from_slice_counted(input.as_slice(), alloc)?;
    Ok(message.body)
}

// The value is written as the body with these digits.
fn check_body<T: IntoBody>(value: T, digits: &str, alloc: Global) -> Result<(), Fail>
where
    T::Body: Drop,
{
    check_written(&value.into_body(), digits, alloc)
}

// The message with these digits has a value of the type as its body, which is written as the same digits.
fn both<T: FromBody + IntoBody>(digits: &str, alloc: Global) -> Result<(), Fail>
where
    <T as IntoBody>::Body: Drop,
{
    let value: T = body(digits, alloc)?;
    check_body(value, digits, alloc)
}

#[test]
fn values_of_a_fixed_width(rt: HostRuntime) -> Result<(), Fail> {
    let alloc = rt.alloc();
    both::<()>("00537740", alloc)?;
    both::<bool>("00537741", alloc)?;
    both::<u8>("0053775007", alloc)?;
    both::<u16>("005377600007", alloc)?;
    both::<u32>("0053775207", alloc)?;
    both::<u64>("0053775307", alloc)?;
    both::<i8>("00537751ff", alloc)?;
    both::<i16>("00537761ffff", alloc)?;
    both::<i32>("00537754ff", alloc)?;
    both::<i64>("00537755ff", alloc)?;
    both::<char>("0053777300000061", alloc)?;
    both::<Dec32>("0053777422500001", alloc)?;
    both::<Dec64>("005377842230000000000001", alloc)?;
    both::<Dec128>("0053779422080000000000000000000000000001", alloc)?;
    both::<Timestamp>("005377830000018258d3cb78", alloc)?;
    both::<Uuid>("00537798f4de71999f58414eb685d42782928fd0", alloc)
}

#[test]
fn values_of_any_width(rt: HostRuntime) -> Result<(), Fail> {
    let alloc = rt.alloc();
    both::<Binary>("005377a00161", alloc)?;
    both::<String>("005377a10161", alloc)?;
    both::<Symbol>("005377a30161", alloc)?;
    both::<Vec<u32>>("005377c003015207", alloc)?;
    both::<Array<u32>>("005377e006017000000007", alloc)?;
    both::<OrderedMap<Symbol, u32>>("005377c10602a301615207", alloc)?;
    both::<BTreeMap<u32, u32>>("005377c1050252015202", alloc)?;
    both::<Value>("00537741", alloc)?;
    both::<LazyValue>("00537741", alloc)
}

fn is_null(value: LazyValue) -> bool {
    value.as_slice() == [0x40].as_slice()
}

#[test]
fn a_lazy_value_is_null_without_a_body(rt: HostRuntime) -> Result<(), Fail> {
    assert!(rt; is_null(body("", rt.alloc())?));
    Ok(())
}

fn is_absent<B: Drop>(body: Option<B>) -> bool {
    body.is_none()
}

#[test]
fn a_value_is_read(rt: HostRuntime) -> Result<(), Fail> {
    let alloc = rt.alloc();
    assert_eq!(rt; body::<u32>("0053775207", alloc)?, 7);
    assert_eq!(rt; body::<Option<u32>>("0053775207", alloc)?, Some(7));
    assert_eq!(rt; body::<Option<u32>>("00537740", alloc)?, None);
    assert_eq!(rt; body::<Option<u32>>("", alloc)?, None);
    check_refused::<Message<u32>>("0053704500537345", Error::EmptyBody, alloc)?;
    check_refused::<Message<String>>("0053704500537345", Error::EmptyBody, alloc)?;
    check_refused::<Message<()>>("", Error::EmptyBody, alloc)?;
    assert!(rt; is(body("0053704500537345", alloc)?, Value::Null));
    assert!(rt; is_absent(body::<Option<String>>("0053704500537345", alloc)?));
    Ok(())
}

#[test]
fn what_may_be_absent(rt: HostRuntime) -> Result<(), Fail> {
    let alloc = rt.alloc();
    assert!(rt; is_absent(body::<Option<AmqpSequence<i32>>>("00537645", alloc)?));
    assert!(rt; !is_absent(body::<Option<Batch<AmqpSequence<i32>>>>("00537645", alloc)?));
    assert!(rt; is_absent(body::<Option<AmqpSequence<i32>>>("005376c00402540140", alloc)?));
    assert!(rt; is_absent(body::<Option<Batch<AmqpSequence<i32>>>>("005376c00402540140", alloc)?));
    assert!(rt; is_absent(body::<Option<Data>>("005375a000", alloc)?));
    assert!(rt; !is_absent(body::<Option<Data>>("005375a00161", alloc)?));
    assert!(rt; is_absent(body::<Option<Data>>("", alloc)?));
    assert!(rt; !is_absent(body::<Option<Batch<Data>>>("005375a000", alloc)?));
    assert!(rt; is_absent(body::<Option<AmqpValue<u32>>>("00537740", alloc)?));
    assert!(rt; is_absent(body::<Option<Body<u32>>>("00537740", alloc)?));
    assert!(rt; !is_absent(body::<Option<Body<u32>>>("005375a000", alloc)?));
    assert!(rt; is_absent(body::<Option<Body<u32>>>("", alloc)?));
    Ok(())
}

#[test]
fn a_value_is_written(rt: HostRuntime) -> Result<(), Fail> {
    let alloc = rt.alloc();
    check_body(7u32, "0053775207", alloc)?;
    check_body(&7u32, "0053775207", alloc)?;
    check_body("a", "005377a10161", alloc)?;
    check_body(SymbolRef("a"), "005377a30161", alloc)?;
    check_body(CowStr::Borrowed("a"), "005377a10161", alloc)?;
    check_body(AmqpValue(7u32), "0053775207", alloc)?;
    check_body(AmqpValue::as_body_ref(&7u32), "0053775207", alloc)?;
    check_body(Data::copy_of(b"a", alloc)?, "005375a00161", alloc)?;
    let empty: Body<u32> = Body::Empty;
    check_body(empty, "00537740", alloc)
}

fn has_one_section(message: Message<AmqpValue<u32>>) -> bool {
    message.sections() == 1
}

#[test]
fn a_message_of_a_value(rt: HostRuntime) -> Result<(), Fail> {
    assert!(rt; has_one_section(Message::from(7u32)));
    check_made(Ok(Message::from(7u32)), "0053775207", rt.alloc())
}
