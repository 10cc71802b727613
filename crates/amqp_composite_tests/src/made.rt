//! Performatives that `new` makes: the mandatory fields, and nothing else (Part 2, section 2.7).
use amqp_attach::Attach;
use amqp_codec::Error;
use amqp_full_composites::parts::text_of;
use amqp_performatives::{Begin, Disposition, Flow, Open, Transfer};
use amqp_restricted_types::{Handle, Role};
use amqp_test_helpers::check_made;
use std::alloc::Global;
use std::test::Fail;

fn made_open(alloc: Global) -> Result<Open, Error> {
    Ok(Open::new(text_of("c", alloc)?))
}

fn made_attach(alloc: Global) -> Result<Attach, Error> {
    Ok(Attach::new(text_of("l", alloc)?, Handle(1), Role::Sender))
}

#[test]
fn mandatory_fields_of_an_open(rt: HostRuntime) -> Result<(), Fail> {
    let alloc = rt.alloc();
    check_made(made_open(alloc), "005310c00401a10163", alloc)
}

#[test]
fn mandatory_fields_of_an_attach(rt: HostRuntime) -> Result<(), Fail> {
    let alloc = rt.alloc();
    check_made(made_attach(alloc), "005312c00703a1016c520142", alloc)
}

#[test]
fn mandatory_fields_of_a_begin(rt: HostRuntime) -> Result<(), Fail> {
    let alloc = rt.alloc();
    check_made(Ok(Begin::new(1, 2, 3)), "005311c0080440520152025203", alloc)
}

#[test]
fn mandatory_fields_of_a_flow(rt: HostRuntime) -> Result<(), Fail> {
    let alloc = rt.alloc();
    check_made(Ok(Flow::new(1, 2, 3)), "005313c0080440520152025203", alloc)
}

#[test]
fn mandatory_fields_of_a_transfer(rt: HostRuntime) -> Result<(), Fail> {
    let alloc = rt.alloc();
    check_made(Ok(Transfer::new(Handle(7))), "005314c003015207", alloc)
}

#[test]
fn mandatory_fields_of_a_disposition(rt: HostRuntime) -> Result<(), Fail> {
    let alloc = rt.alloc();
    check_made(
        Ok(Disposition::new(Role::Receiver, 5)),
        "005315c00402415205",
        alloc,
    )
}
