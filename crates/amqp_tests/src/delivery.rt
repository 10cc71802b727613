//! Delivery states: values that are written and read, and the codes that errors hold.
use amqp_test_helpers::{check_written, is_made, is_refused};
use fe2o3_amqp_types::codec::{Deserialize, Error, Serialize, from_slice};
use fe2o3_amqp_types::messaging::{Accepted, DeliveryState, Received, Released};
use std::alloc::Global;
use std::test::Fail;

const RECEIVED: Received = Received {
    section_number: 9,
    section_offset: 13,
};

// The value is written so, and that is read as the value.
fn check_both_ways<T: Serialize + Deserialize + PartialEq + Drop>(
    value: T,
    digits: &str,
    alloc: Global,
) -> Result<(), Fail> {
    check_written(&value, digits, alloc)?;
    let bytes = hex::decode(alloc, digits)?;
    if !is_made(from_slice(bytes.as_slice(), alloc), value)? {
        return Err(Fail::new(format_args!("{digits} is read otherwise")));
    }
    Ok(())
}

#[test]
fn accepted_both_ways(rt: HostRuntime) -> Result<(), Fail> {
    check_both_ways(Accepted {}, "00532445", rt.alloc())
}

#[test]
fn received_both_ways(rt: HostRuntime) -> Result<(), Fail> {
    check_both_ways(RECEIVED, "005323c005025209530d", rt.alloc())?;
    let state = DeliveryState::from(RECEIVED);
    check_both_ways(state, "005323c005025209530d", rt.alloc())
}

#[test]
fn released_both_ways(rt: HostRuntime) -> Result<(), Fail> {
    check_both_ways(Released {}, "00532645", rt.alloc())?;
    let state = DeliveryState::from(Released {});
    check_both_ways(state, "00532645", rt.alloc())
}

// Each text is refused so.
fn check_refusals<T: Deserialize>(rows: &[(&str, Error)], alloc: Global) -> Result<(), Fail> {
    for (digits, error) in rows {
        let bytes = hex::decode(alloc, digits)?;
        if !is_refused::<T>(from_slice(bytes.as_slice(), alloc), *error) {
            return Err(Fail::new(format_args!("{digits} is refused otherwise")));
        }
    }
    Ok(())
}

#[test]
fn refused_codes(rt: HostRuntime) -> Result<(), Fail> {
    check_refusals::<Accepted>(
        &[
            ("00532400532445", Error::WrongType(0)),
            ("40", Error::WrongType(0x40)),
            ("99", Error::UnknownCode(0x99)),
            ("7200000000", Error::FloatCode(0x72)),
            ("008245", Error::FloatCode(0x82)),
            ("009945", Error::UnknownCode(0x99)),
        ],
        rt.alloc(),
    )?;
    check_refusals::<Received>(
        &[("005323c0050253095209", Error::WrongType(0x53))],
        rt.alloc(),
    )
}
