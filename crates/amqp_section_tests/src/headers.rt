//! Headers, properties and the types of their fields (Part 3, sections 3.2.1, 3.2.4 and 3.2.11 to 3.2.14), the fields by their names. The
//! digits are written out by the standard's tables.
use crate::parts::rewritten;
use amqp_codec::{Error, Symbol};
use amqp_full_composites::parts::{binary_of, symbol_of, text_of};
use amqp_message_headers::{Header, MessageId, Priority, Properties, properties};
use amqp_primitives::{Binary, Timestamp, Uuid};
use amqp_test_helpers::{
    are_equal, check_made, check_refused, check_written, is, is_copied, is_less, is_read,
};
use std::alloc::Global;
use std::test::Fail;

fn full_header() -> Header {
    Header {
        durable: true,
        priority: Priority(9),
        ttl: Some(300),
        first_acquirer: true,
        delivery_count: 7,
    }
}

#[test]
fn fields_of_a_header(rt: HostRuntime) -> Result<(), Fail> {
    check_written(
        &full_header(),
        "005370c00c05\
         41\
         5009\
         700000012c\
         41\
         5207",
        rt.alloc(),
    )
}

#[test]
fn defaults_of_a_header(rt: HostRuntime) -> Result<(), Fail> {
    let alloc = rt.alloc();
    check_made(Ok(Header::default()), "00537045", alloc)?;
    rewritten::<Header>("005370c00705425004404243", "00537045", alloc)?;
    rewritten::<Header>("00537045", "00537045", alloc)?;
    rewritten::<Header>("005370c003024040", "00537045", alloc)
}

#[test]
fn a_header_call_by_call(rt: HostRuntime) -> Result<(), Fail> {
    let alloc = rt.alloc();
    let header = Header::builder()
        .durable(true)
        .priority(Priority(0))
        .build();
    check_made(Ok(header), "005370c00402415000", alloc)?;
    let full = Header::builder()
        .durable(true)
        .priority(Priority(9))
        .ttl(Some(300))
        .first_acquirer(true)
        .delivery_count(7)
        .build();
    assert!(rt; is(full, full_header()));
    let made: Option<Header> = Header::builder().into();
    assert!(rt; is(made, Some(Header::default())));
    Ok(())
}

#[test]
fn headers_are_refused(rt: HostRuntime) -> Result<(), Fail> {
    let alloc = rt.alloc();
    check_refused::<Header>("005370c0020152", Error::WrongType(0x52), alloc)?;
    check_refused::<Header>("005370c00706404040404040", Error::Surplus, alloc)?;
    check_refused::<Header>("00537345", Error::WrongDescriptor, alloc)
}

#[derive(Drop)]
struct Addresses {
    user_id: Binary,
    to: String,
    subject: String,
    reply_to: String,
}

fn full_addresses(alloc: Global) -> Result<Addresses, Error> {
    Ok(Addresses {
        user_id: binary_of(&[0x75], alloc)?,
        to: text_of("t", alloc)?,
        subject: text_of("s", alloc)?,
        reply_to: text_of("r", alloc)?,
    })
}

#[derive(Drop)]
struct Contents {
    correlation_id: String,
    content_type: Symbol,
    content_encoding: Symbol,
}

fn full_contents(alloc: Global) -> Result<Contents, Error> {
    Ok(Contents {
        correlation_id: text_of("c", alloc)?,
        content_type: symbol_of("y", alloc)?,
        content_encoding: symbol_of("e", alloc)?,
    })
}

#[derive(Drop)]
struct Groups {
    group_id: String,
    reply_to_group_id: String,
}

fn full_groups(alloc: Global) -> Result<Groups, Error> {
    Ok(Groups {
        group_id: text_of("g", alloc)?,
        reply_to_group_id: text_of("h", alloc)?,
    })
}

fn full_properties(alloc: Global) -> Result<Properties, Error> {
    let addresses = full_addresses(alloc)?;
    let contents = full_contents(alloc)?;
    let groups = full_groups(alloc)?;
    Ok(Properties {
        message_id: Some(MessageId::Ulong(1)),
        user_id: Some(addresses.user_id),
        to: Some(addresses.to),
        subject: Some(addresses.subject),
        reply_to: Some(addresses.reply_to),
        correlation_id: Some(MessageId::String(contents.correlation_id)),
        content_type: Some(contents.content_type),
        content_encoding: Some(contents.content_encoding),
        absolute_expiry_time: Some(Timestamp(1)),
        creation_time: Some(Timestamp(-1)),
        group_id: Some(groups.group_id),
        group_sequence: Some(300),
        reply_to_group_id: Some(groups.reply_to_group_id),
    })
}

#[test]
fn fields_of_properties(rt: HostRuntime) -> Result<(), Fail> {
    let alloc = rt.alloc();
    check_made(
        full_properties(alloc),
        "005373c0350d\
         5301\
         a00175\
         a10174\
         a10173\
         a10172\
         a10163\
         a30179\
         a30165\
         830000000000000001\
         83ffffffffffffffff\
         a10167\
         700000012c\
         a10168",
        alloc,
    )
}

fn built_properties(alloc: Global) -> Result<Properties, Error> {
    let addresses = full_addresses(alloc)?;
    let contents = full_contents(alloc)?;
    let groups = full_groups(alloc)?;
    Ok(
        Properties::builder()
            .message_id(MessageId::Ulong(1))
            .user_id(addresses.user_id)
            .to(addresses.to)
            .subject(addresses.subject)
            .reply_to(addresses.reply_to)
            .correlation_id(MessageId::String(contents.correlation_id))
            .content_type(contents.content_type)
            .content_encoding(contents.content_encoding)
            .absolute_expiry_time(Some(Timestamp(1)))
            .creation_time(Some(Timestamp(-1)))
            .group_id(Some(groups.group_id))
            .group_sequence(Some(300))
            .reply_to_group_id(Some(groups.reply_to_group_id))
            .build(),
    )
}

#[test]
fn properties_call_by_call(rt: HostRuntime) -> Result<(), Fail> {
    let alloc = rt.alloc();
    assert!(rt; are_equal(built_properties(alloc), full_properties(alloc))?);
    let made: Option<Properties> = Properties::builder().into();
    assert!(rt; is(made, Some(Properties::default())));
    Ok(())
}

#[test]
fn an_identifier_alone(rt: HostRuntime) -> Result<(), Fail> {
    let alloc = rt.alloc();
    let properties = Properties::builder()
        .message_id(MessageId::Ulong(1))
        .build();
    check_made(Ok(properties), "005373c003015301", alloc)?;
    check_made(Ok(Properties::new()), "00537345", alloc)?;
    rewritten::<Properties>("005373c00402530140", "005373c003015301", alloc)
}

#[test]
fn identifiers_are_written(rt: HostRuntime) -> Result<(), Fail> {
    let alloc = rt.alloc();
    check_made(Ok(MessageId::Ulong(0)), "44", alloc)?;
    check_made(Ok(MessageId::from(256u64)), "800000000000000100", alloc)?;
    check_made(
        Ok(MessageId::from(Uuid([7; 16]))),
        "9807070707070707070707070707070707",
        alloc,
    )?;
    check_made(binary_of(&[1], alloc).map(MessageId::from), "a00101", alloc)?;
    check_made(text_of("a", alloc).map(MessageId::from), "a10161", alloc)
}

#[test]
fn identifiers_are_read_in_each_spelling(rt: HostRuntime) -> Result<(), Fail> {
    let alloc = rt.alloc();
    for (digits, canonical) in [
        ("44", "44"),
        ("5300", "44"),
        ("5301", "5301"),
        ("800000000000000001", "5301"),
        (
            "9800112233445566778899aabbccddeeff",
            "9800112233445566778899aabbccddeeff",
        ),
        ("a00101", "a00101"),
        ("b00000000101", "a00101"),
        ("a10161", "a10161"),
        ("b10000000161", "a10161"),
    ] {
        rewritten::<MessageId>(digits, canonical, alloc)?;
    }
    Ok(())
}

#[test]
fn identifiers_are_refused(rt: HostRuntime) -> Result<(), Fail> {
    let alloc = rt.alloc();
    for (digits, error) in [
        ("40", Error::WrongType(0x40)),
        ("5201", Error::WrongType(0x52)),
        ("a30161", Error::WrongType(0xa3)),
        ("45", Error::WrongType(0x45)),
        ("00532445", Error::WrongType(0)),
        ("99", Error::UnknownCode(0x99)),
        ("7200000000", Error::FloatCode(0x72)),
        ("a101ff", Error::BadUtf8),
        ("98", Error::Cut),
        ("53", Error::Cut),
        ("", Error::Cut),
    ] {
        check_refused::<MessageId>(digits, error, alloc)?;
    }
    Ok(())
}

#[test]
fn order_of_identifiers(rt: HostRuntime) -> Result<(), Fail> {
    let alloc = rt.alloc();
    let number = || Ok(MessageId::Ulong(9));
    let uuid = || Ok(MessageId::Uuid(Uuid([0; 16])));
    let bytes = || binary_of(&[], alloc).map(MessageId::Binary);
    let text = || text_of("", alloc).map(MessageId::String);
    assert!(rt; is_less(number(), uuid())?);
    assert!(rt; is_less(uuid(), bytes())?);
    assert!(rt; is_less(bytes(), text())?);
    assert!(rt; is_less(Ok(MessageId::Ulong(8)), number())?);
    assert!(rt; is_copied(text())?);
    assert!(rt; is_read("5309", number(), alloc)?);
    Ok(())
}

// A copy of the builder of a header builds what the builder does.
fn is_header_built() -> Result<bool, Error> {
    let builder = Header::builder().ttl(Some(3));
    let copy = builder.clone()?;
    Ok(is(copy.build(), builder.build()))
}

fn properties_of_an_address(alloc: Global) -> Result<properties::Builder, Error> {
    let address = text_of("q", alloc)?;
    Ok(Properties::builder().to(address))
}

// A copy of the builder of properties builds what the builder does.
fn are_properties_built(alloc: Global) -> Result<bool, Error> {
    let builder = properties_of_an_address(alloc)?;
    let copy = builder.clone()?;
    Ok(is(copy.build(), builder.build()))
}

#[test]
fn copies_of_headers(rt: HostRuntime) -> Result<(), Fail> {
    let alloc = rt.alloc();
    assert!(rt; is_header_built()?);
    assert!(rt; is_copied(Ok(Header::default()))?);
    assert!(rt; are_properties_built(alloc)?);
    let properties = properties_of_an_address(alloc)?;
    assert!(rt; is_copied(Ok(properties.build()))?);
    Ok(())
}
