//! Batches and bodies by themselves (Part 3, sections 3.2.6 to 3.2.8). The digits are written out by the standard's tables.
use amqp_batches::Batch;
use amqp_bodies::Body;
use amqp_codec::Error;
use amqp_sections::{AmqpSequence, Data};
use amqp_test_helpers::{check_refused, read_and_written};
use amqp_values::Value;
use std::test::Fail;

#[test]
fn a_batch_is_the_longest_run(rt: HostRuntime) -> Result<(), Fail> {
    let alloc = rt.alloc();
    read_and_written::<Batch<Data>>("", "", 0, alloc)?;
    read_and_written::<Batch<Data>>(
        "005375a00161005375a00162",
        "005375a00161005375a00162",
        0,
        alloc,
    )?;
    read_and_written::<Batch<Data>>("005375a00161005378c10100", "005375a00161", 6, alloc)?;
    read_and_written::<Batch<Data>>("005375a001610053", "005375a00161", 2, alloc)?;
    read_and_written::<Batch<AmqpSequence<Value>>>(
        "00537645005376c0050254015402",
        "00537645005376c0050254015402",
        0,
        alloc,
    )
}

#[test]
fn a_body_is_one_group(rt: HostRuntime) -> Result<(), Fail> {
    let alloc = rt.alloc();
    read_and_written::<Body<Value>>("0053774100537742", "00537741", 4, alloc)?;
    read_and_written::<Body<Value>>(
        "005375a00161005375a00162",
        "005375a00161005375a00162",
        0,
        alloc,
    )?;
    read_and_written::<Body<Value>>("005376450053764500537545", "0053764500537645", 4, alloc)?;
    check_refused::<Body<Value>>("00537045", Error::WrongDescriptor, alloc)?;
    check_refused::<Body<Value>>("", Error::Cut, alloc)?;
    check_refused::<Body<Value>>("ff", Error::NotSection, alloc)?;
    check_refused::<Body<Value>>("00532445", Error::NotSection, alloc)?;
    check_refused::<Body<Value>>("0053", Error::Cut, alloc)
}
