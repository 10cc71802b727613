//! An identifier, which is a ulong or a symbol.
use super::{Row, check};
use amqp_test_helpers::{check_refused, is_read};
use amqp_user_types::identifier::Identifier;
use fe2o3_amqp_types::codec::Error;
use fe2o3_amqp_types::primitives::Symbol;
use std::test::Fail;

const TEXTS: [Row; 8] = [
    ("5305", "5305"),
    ("800000000000000005", "5305"),
    ("44", "44"),
    ("5300", "44"),
    ("800000000000000100", "800000000000000100"),
    ("a30161", "a30161"),
    ("b30000000161", "a30161"),
    ("a300", "a300"),
];

#[test]
fn one_text_for_all_spellings(rt: HostRuntime) -> Result<(), Fail> {
    check::<Identifier>("", &TEXTS, rt.alloc())
}

#[test]
fn numbers(rt: HostRuntime) -> Result<(), Fail> {
    for (digits, number) in [
        ("5305", 5),
        ("800000000000000005", 5),
        ("44", 0),
        ("5300", 0),
        ("800000000000000100", 256),
    ] {
        let wanted = Ok(Identifier::Number(number));
        assert!(rt; is_read(digits, wanted, rt.alloc())?, "of {digits}");
    }
    Ok(())
}

#[test]
fn names(rt: HostRuntime) -> Result<(), Fail> {
    for (digits, name) in [("a30161", "a"), ("b30000000161", "a"), ("a300", "")] {
        let wanted = Ok(Identifier::Name(Symbol::from_str_in(name, rt.alloc())?));
        assert!(rt; is_read(digits, wanted, rt.alloc())?, "of {digits}");
    }
    Ok(())
}

#[test]
fn refusals(rt: HostRuntime) -> Result<(), Fail> {
    for (digits, error) in [
        ("a301ff", Error::NonAscii),
        ("5205", Error::WrongType(0x52)),
        ("40", Error::WrongType(0x40)),
        ("53", Error::Cut),
        ("a3056162", Error::Cut),
    ] {
        check_refused::<Identifier>(digits, error, rt.alloc())?;
    }
    Ok(())
}
