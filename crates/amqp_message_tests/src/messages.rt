//! Messages in any order and in the standard's (Part 3, section 3.2). The digits are written out by the standard's tables.
use amqp_batches::Batch;
use amqp_bodies::{Body, CanonicalBody, FromBody};
use amqp_codec::Error;
use amqp_messages::{Message, Strict, canonical_text_strict, decode_message_strict};
use amqp_read_write::from_slice_counted;
use amqp_sections::{AmqpSequence, AmqpValue, Data};
use amqp_test_helpers::{check_refused, read_and_written};
use amqp_values::Value;
use std::alloc::Global;
use std::test::Fail;

#[test]
fn a_run_is_one_group(rt: HostRuntime) -> Result<(), Fail> {
    let alloc = rt.alloc();
    let text =
        "00537045005375a009010203040506070809005375a009010203040506070809005375a009010203040506070809005378c10100";
    read_and_written::<Message<Batch<Data>>>(text, text, 0, alloc)?;
    let text = "00537045005376c00703540154025403005376c00703540454055406005376c00703540754085409";
    read_and_written::<Message<Batch<AmqpSequence<Value>>>>(text, text, 0, alloc)?;
    read_and_written::<Message<Data>>("005375a00161005375a00162", "005375a00162", 0, alloc)
}

// A header, seven sections of data, and a footer.
const SEVEN_DATA: &str = concat!(
    "00537045",
    "005375a00161",
    "005375a00161",
    "005375a00161",
    "005375a00161",
    "005375a00161",
    "005375a00161",
    "005375a00161",
    "005378c10100"
);

#[test]
fn a_run_of_seven_is_one_group(rt: HostRuntime) -> Result<(), Fail> {
    let alloc = rt.alloc();
    read_and_written::<Message<Batch<Data>>>(SEVEN_DATA, SEVEN_DATA, 0, alloc)?;
    // as single data each is a group of its own, so that reading stops behind the sixth
    read_and_written::<Message<Data>>(SEVEN_DATA, "00537045005375a00161", 12, alloc)
}

// The 65 bytes of a message that has each section.
const WHOLE: &str =
    "005370c0020141005371c10802a3036b65795201005372c10a02a3046b657932a10176005373c003015301005374c10702a102736e540100537741005378c10100";

fn strict_length<B: FromBody>(digits: &str, alloc: Global) -> Result<usize, Fail> {
    let input = hex::decode(alloc, digits)?;
    let (_message, len): (Strict<B>, usize) = from_slice_counted(input.as_slice(), alloc)?;
    Ok(len)
}

#[test]
fn strict_messages(rt: HostRuntime) -> Result<(), Fail> {
    let alloc = rt.alloc();
    assert_eq!(rt; strict_length::<Body<Value>>(WHOLE, alloc)?, 65);
    assert_eq!(rt; strict_length::<Body<Value>>("0053704500537345", alloc)?, 8);
    assert_eq!(rt;
        strict_length::<Batch<Data>>("005375a00161005375a00162", alloc)?,
        12
    );
    Ok(())
}

fn strict_sections<B: FromBody>(digits: &str, alloc: Global) -> Result<u32, Fail> {
    let input = hex::decode(alloc, digits)?;
    let mut reader = input.as_slice();
    let message: Message<B> = decode_message_strict(&mut reader, alloc)?;
    Ok(message.sections())
}

#[test]
fn strict_messages_of_a_reader(rt: HostRuntime) -> Result<(), Fail> {
    assert_eq!(rt; strict_sections::<Body<Value>>(WHOLE, rt.alloc())?, 7);
    Ok(())
}

// A whole message with these digits behind it is refused with this error.
fn check_behind_whole(digits: &str, wanted: Error, alloc: Global) -> Result<(), Fail> {
    let mut input = String::from_str(alloc, WHOLE)?;
    input.push_str(digits)?;
    check_refused::<Strict<Body<Value>>>(&input, wanted, alloc)
}

#[test]
fn what_is_misplaced(rt: HostRuntime) -> Result<(), Fail> {
    let alloc = rt.alloc();
    check_refused::<Strict<Body<Value>>>("00537741005375a00161", Error::Misplaced, alloc)?;
    check_behind_whole("00", Error::Cut, alloc)?;
    check_behind_whole("ff", Error::NotSection, alloc)
}

// The bytes are a strict message with this text.
fn check_strict_text<B: CanonicalBody>(
    digits: &str,
    wanted: &str,
    alloc: Global,
) -> Result<(), Fail> {
    let input = hex::decode(alloc, digits)?;
    let text = canonical_text_strict::<B>(input.as_slice(), alloc)?;
    let text = hex::encode(alloc, &text)?;
    if text.as_str() != wanted {
        return Err(Fail::new(format_args!("{digits} has the text {text}")));
    }
    Ok(())
}

#[test]
fn texts_of_strict_messages(rt: HostRuntime) -> Result<(), Fail> {
    let alloc = rt.alloc();
    check_strict_text::<Body<Value>>("0053704500537345", "005370450053734500537740", alloc)?;
    check_strict_text::<Body<Value>>(WHOLE, WHOLE, alloc)
}

#[test]
fn texts_of_bodies_of_numbers(rt: HostRuntime) -> Result<(), Fail> {
    let alloc = rt.alloc();
    check_strict_text::<Body<i32>>("0053777100000007", "0053775407", alloc)?;
    check_strict_text::<Body<i32>>("005375b00000000161", "005375a00161", alloc)?;
    // An absent body is written as a null, though no number is one.
    check_strict_text::<Body<i32>>("00537045", "0053704500537740", alloc)?;
    check_refused::<Strict<Body<i32>>>("0053704500537740", Error::WrongType(0x40), alloc)
}

// The sections, in this order, are a message that is written in the standard's.
fn check_order(sections: &[&str], alloc: Global) -> Result<(), Fail> {
    let mut digits = String::new(alloc);
    for section in sections {
        digits.push_str(section)?;
    }
    read_and_written::<Message<AmqpValue<Value>>>(
        &digits,
        "005370c0020141005373c00301530100537741005378c10100",
        0,
        alloc,
    )
}

#[test]
fn one_text_in_three_orders(rt: HostRuntime) -> Result<(), Fail> {
    let alloc = rt.alloc();
    let header = "005370c0020141";
    let properties = "005373c003015301";
    let value = "00537741";
    let footer = "005378c10100";
    check_order(&[header, properties, value, footer], alloc)?;
    check_order(&[footer, value, properties, header], alloc)?;
    check_order(&[value, header, footer, properties], alloc)
}
