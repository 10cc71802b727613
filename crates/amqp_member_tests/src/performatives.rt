//! What is made of each performative is that member of the sum, and a copy of it is equal to it (Part 2, section 2.7).
use crate::parts::are_equal_and_copied;
use amqp_attach::Performative;
use amqp_full_composites::performatives::{
    full_attach, full_begin, full_close, full_detach, full_disposition, full_end, full_flow,
    full_open, full_transfer,
};
use std::test::Fail;

#[test]
fn open(rt: HostRuntime) -> Result<(), Fail> {
    let alloc = rt.alloc();
    let made = full_open(alloc).map(Performative::from);
    assert!(rt; are_equal_and_copied(made, full_open(alloc).map(Performative::Open))?);
    Ok(())
}

#[test]
fn begin(rt: HostRuntime) -> Result<(), Fail> {
    let alloc = rt.alloc();
    let made = full_begin(alloc).map(Performative::from);
    assert!(rt; are_equal_and_copied(made, full_begin(alloc).map(Performative::Begin))?);
    Ok(())
}

#[test]
fn attach(rt: HostRuntime) -> Result<(), Fail> {
    let alloc = rt.alloc();
    let made = full_attach(alloc).map(Performative::from);
    assert!(rt; are_equal_and_copied(made, full_attach(alloc).map(Performative::Attach))?);
    Ok(())
}

#[test]
fn flow(rt: HostRuntime) -> Result<(), Fail> {
    let alloc = rt.alloc();
    let made = full_flow(alloc).map(Performative::from);
    assert!(rt; are_equal_and_copied(made, full_flow(alloc).map(Performative::Flow))?);
    Ok(())
}

#[test]
fn transfer(rt: HostRuntime) -> Result<(), Fail> {
    let alloc = rt.alloc();
    let made = full_transfer(alloc).map(Performative::from);
    assert!(rt; are_equal_and_copied(made, full_transfer(alloc).map(Performative::Transfer))?);
    Ok(())
}

#[test]
fn detach(rt: HostRuntime) -> Result<(), Fail> {
    let alloc = rt.alloc();
    let made = full_detach(alloc).map(Performative::from);
    assert!(rt; are_equal_and_copied(made, full_detach(alloc).map(Performative::Detach))?);
    Ok(())
}

#[test]
fn end(rt: HostRuntime) -> Result<(), Fail> {
    let alloc = rt.alloc();
    let made = full_end(alloc).map(Performative::from);
    assert!(rt; are_equal_and_copied(made, full_end(alloc).map(Performative::End))?);
    Ok(())
}

#[test]
fn close(rt: HostRuntime) -> Result<(), Fail> {
    let alloc = rt.alloc();
    let made = full_close(alloc).map(Performative::from);
    assert!(rt; are_equal_and_copied(made, full_close(alloc).map(Performative::Close))?);
    Ok(())
}

#[test]
fn disposition(rt: HostRuntime) -> Result<(), Fail> {
    let made = Performative::from(full_disposition());
    let wanted = Performative::Disposition(full_disposition());
    assert!(rt; are_equal_and_copied(Ok(made), Ok(wanted))?);
    Ok(())
}
