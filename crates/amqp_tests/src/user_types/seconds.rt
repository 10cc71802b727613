//! Seconds, a list of one field.
use super::{Row, check};
use amqp_test_helpers::{check_refused, check_written, is_read};
use amqp_user_types::seconds::Seconds;
use fe2o3_amqp_types::codec::Error;
use std::test::Fail;

const FIVE_SECONDS: [Row; 4] = [
    ("d000000009000000017000000005", "c003015205"),
    ("c006017000000005", "c003015205"),
    ("d000000006000000015205", "c003015205"),
    ("c003015205", "c003015205"),
];

#[test]
fn one_text_for_all_spellings(rt: HostRuntime) -> Result<(), Fail> {
    check::<Seconds>("", &FIVE_SECONDS, rt.alloc())
}

#[test]
fn written_and_read(rt: HostRuntime) -> Result<(), Fail> {
    for (count, digits) in [
        (0, "c0020143"),
        (5, "c003015205"),
        (256, "c006017000000100"),
    ] {
        check_written(&Seconds { count }, digits, rt.alloc())?;
        assert!(rt;
            is_read(digits, Ok(Seconds { count }), rt.alloc())?,
            "{count} seconds"
        );
    }
    Ok(())
}

#[test]
fn refusals(rt: HostRuntime) -> Result<(), Fail> {
    for (digits, error) in [
        ("45", Error::Missing),
        ("c00402520540", Error::Surplus),
        ("c003015305", Error::WrongType(0x53)),
        ("5205", Error::WrongType(0x52)),
    ] {
        check_refused::<Seconds>(digits, error, rt.alloc())?;
    }
    Ok(())
}
