//! Each type of the security layer once, its fields by their names (Part 5, section 5.3.3). The digits are written out by the
//! standard's tables.
use amqp_full_composites::sasl::{
    full_challenge, full_init, full_mechanisms, full_outcome, full_response,
};
use amqp_test_helpers::check_made;
use std::test::Fail;

#[test]
fn field_of_mechanisms(rt: HostRuntime) -> Result<(), Fail> {
    let alloc = rt.alloc();
    check_made(
        full_mechanisms(alloc),
        "005340c01a01\
         e01702b300000005504c41494e0000000845585445524e414c",
        alloc,
    )
}

#[test]
fn fields_of_an_init(rt: HostRuntime) -> Result<(), Fail> {
    let alloc = rt.alloc();
    check_made(
        full_init(alloc),
        "005341c01003\
         a305504c41494e\
         a003000102\
         a10168",
        alloc,
    )
}

#[test]
fn field_of_a_challenge(rt: HostRuntime) -> Result<(), Fail> {
    let alloc = rt.alloc();
    check_made(full_challenge(alloc), "005342c00501a0020102", alloc)
}

#[test]
fn field_of_a_response(rt: HostRuntime) -> Result<(), Fail> {
    let alloc = rt.alloc();
    check_made(full_response(alloc), "005343c00601a003030405", alloc)
}

#[test]
fn fields_of_an_outcome(rt: HostRuntime) -> Result<(), Fail> {
    let alloc = rt.alloc();
    check_made(
        full_outcome(alloc),
        "005344c00602\
         5001\
         a00106",
        alloc,
    )
}
