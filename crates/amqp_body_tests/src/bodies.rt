//! What bodies are made of, what is moved out of them, and how they are printed. The digits are written out by the standard's tables.
use amqp_batches::Batch;
use amqp_bodies::Body;
use amqp_codec::Error;
use amqp_sections::{AmqpSequence, AmqpValue, Data};
use amqp_test_helpers::{are_equal, check_made, is, is_copied, read};
use amqp_values::Value;
use std::alloc::Global;
use std::fmt::Display;
use std::test::Fail;

// The body that is one sequence, of 1, 2 and 3.
fn numbers(alloc: Global) -> Result<Body<i32>, Error> {
    Body::from_items(Vec::from_slice(alloc, &[1, 2, 3])?, alloc)
}

// The body that is two sections of data, of the bytes 61 and 62.
fn two_data(alloc: Global) -> Result<Body<Value>, Fail> {
    read("005375a00161005375a00162", alloc)
}

fn is_value_alone(body: &Body<u8>) -> bool {
    body.is_value() && !body.is_data() && !body.is_sequence() && !body.is_empty()
}

fn lends_seven(body: &Body<u8>) -> bool {
    body.try_as_value().is_ok_and(|value| *value == 7) && body.try_as_data().is_err()
}

#[test]
fn a_value(rt: HostRuntime) {
    assert!(rt; is_value_alone(&Body::from(7)));
    assert!(rt; lends_seven(&Body::from(7)));
    assert!(rt; is(Body::<u8>::from(7), Body::from(AmqpValue(7))));
    assert!(rt; is(Body::<u8>::from(7).try_into_value(), Ok(7)));
}

fn lends_empty(body: &Body<u8>) -> bool {
    body.is_empty()
        && body.try_as_value().is_err_and(|other| other.is_empty())
        && body.try_as_sequence().is_err_and(|other| other.is_empty())
}

#[test]
fn another_kind_is_given_back(rt: HostRuntime) {
    assert!(rt; lends_empty(&Body::Empty));
    assert!(rt; is(Body::<u8>::Empty.try_into_value(), Err(Body::Empty)));
}

fn is_sequence(body: Body<i32>) -> bool {
    body.is_sequence()
}

fn sequence(alloc: Global) -> Result<Body<i32>, Error> {
    Body::from_sequence(AmqpSequence(Vec::from_slice(alloc, &[1, 2, 3])?), alloc)
}

#[test]
fn items_are_one_sequence(rt: HostRuntime) -> Result<(), Fail> {
    let alloc = rt.alloc();
    assert!(rt; is_sequence(numbers(alloc)?));
    check_made(numbers(alloc), "005376c00703540154025403", alloc)?;
    assert!(rt; are_equal(numbers(alloc), sequence(alloc))?);
    Ok(())
}

fn lends_one_list(body: &Body<i32>) -> bool {
    match body.try_as_sequence() {
        Ok(mut lists) => {
            lists.next().is_some_and(|list| list.len() == 3) && lists.next().is_none()
        }
        Err(_) => false,
    }
}

fn moves_one_list(body: Body<i32>) -> bool {
    match body.try_into_sequence() {
        Ok(mut lists) => {
            lists
                .next()
                .is_some_and(|list| list.as_slice() == [1, 2, 3].as_slice())
                && lists.next().is_none()
        }
        Err(_) => false,
    }
}

#[test]
fn lists_in_order(rt: HostRuntime) -> Result<(), Fail> {
    let body = numbers(rt.alloc())?;
    let well = lends_one_list(&body) && moves_one_list(body);
    assert!(rt; well);
    Ok(())
}

fn lends_a_and_b(body: &Body<Value>) -> bool {
    match body.try_as_data() {
        Ok(mut data) => {
            data.next()
                .is_some_and(|bytes| bytes.as_slice() == b"a".as_slice())
                && data
                    .next()
                    .is_some_and(|bytes| bytes.as_slice() == b"b".as_slice())
                && data.next().is_none()
        }
        Err(_) => false,
    }
}

fn moves_a_and_b(body: Body<Value>) -> bool {
    match body.try_into_data() {
        Ok(mut data) => {
            data.next()
                .is_some_and(|bytes| bytes.as_slice() == b"a".as_slice())
                && data
                    .next()
                    .is_some_and(|bytes| bytes.as_slice() == b"b".as_slice())
                && data.next().is_none()
        }
        Err(_) => false,
    }
}

#[test]
fn data_in_order(rt: HostRuntime) -> Result<(), Fail> {
    let body = two_data(rt.alloc())?;
    let well = lends_a_and_b(&body) && moves_a_and_b(body);
    assert!(rt; well);
    Ok(())
}

fn one_data(alloc: Global) -> Result<Body<Value>, Error> {
    Body::from_data(Data::copy_of(b"a", alloc)?, alloc)
}

fn is_data(body: Body<Value>) -> bool {
    body.is_data()
}

#[test]
fn one_section_of_data(rt: HostRuntime) -> Result<(), Fail> {
    let alloc = rt.alloc();
    assert!(rt; is_data(one_data(alloc)?));
    check_made(one_data(alloc), "005375a00161", alloc)
}

fn is_printed<T: Display + Drop>(value: T, wanted: &str, alloc: Global) -> Result<bool, Error> {
    let text = value.to_string(alloc)?;
    Ok(text.as_str() == wanted)
}

#[test]
fn bodies_are_printed(rt: HostRuntime) -> Result<(), Fail> {
    let alloc = rt.alloc();
    assert!(rt; is_printed(Body::<u8>::from(7), "AmqpValue(7)", alloc)?);
    assert!(rt; is_printed(numbers(alloc)?, "Sequence", alloc)?);
    assert!(rt; is_printed(Body::<u8>::Data(Batch::new(Vec::new(alloc))), "Data", alloc)?);
    assert!(rt; is_printed(Body::<u8>::Empty, "Nothing", alloc)?);
    Ok(())
}

#[test]
fn copies_of_bodies(rt: HostRuntime) -> Result<(), Fail> {
    let alloc = rt.alloc();
    assert!(rt; is_copied(numbers(alloc))?);
    assert!(rt; is_copied(Ok(two_data(alloc)?))?);
    Ok(())
}
