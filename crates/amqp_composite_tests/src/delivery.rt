//! An error, each delivery state and each request of a transaction once, its fields by their names (Part 2, section 2.8.14; Part 3,
//! section 3.4; Part 4, section 4.5). The digits are written out by the standard's tables.
use amqp_full_composites::delivery::{
    full_declare, full_declared, full_discharge, full_error, full_modified, full_received,
    full_rejected, full_transactional_state,
};
use amqp_plain_states::{Accepted, Released};
use amqp_test_helpers::{check_made, check_written};
use std::test::Fail;

#[test]
fn fields_of_an_error(rt: HostRuntime) -> Result<(), Fail> {
    let alloc = rt.alloc();
    check_made(
        full_error(alloc),
        "00531dc02603\
         a318616d71703a73657373696f6e3a657272616e742d6c696e6b\
         a10164\
         c10602a301695007",
        alloc,
    )
}

#[test]
fn fields_of_a_received(rt: HostRuntime) -> Result<(), Fail> {
    check_written(
        &full_received(),
        "005323c00f02\
         700000012c\
         800000000100000001",
        rt.alloc(),
    )
}

#[test]
fn accepted_has_no_fields(rt: HostRuntime) -> Result<(), Fail> {
    check_written(&Accepted {}, "00532445", rt.alloc())
}

#[test]
fn released_has_no_fields(rt: HostRuntime) -> Result<(), Fail> {
    check_written(&Released {}, "00532645", rt.alloc())
}

#[test]
fn field_of_a_rejected(rt: HostRuntime) -> Result<(), Fail> {
    let alloc = rt.alloc();
    check_made(
        full_rejected(alloc),
        "005325c00d0100531dc00702a30178a10179",
        alloc,
    )
}

#[test]
fn fields_of_a_modified(rt: HostRuntime) -> Result<(), Fail> {
    let alloc = rt.alloc();
    check_made(
        full_modified(alloc),
        "005327c00c03\
         41\
         42\
         c10702a3016da10176",
        alloc,
    )
}

#[test]
fn fields_of_a_transactional_state(rt: HostRuntime) -> Result<(), Fail> {
    let alloc = rt.alloc();
    check_made(
        full_transactional_state(alloc),
        "005334c00b02\
         a00107\
         005327c0020141",
        alloc,
    )
}

#[test]
fn field_of_a_declared(rt: HostRuntime) -> Result<(), Fail> {
    let alloc = rt.alloc();
    check_made(full_declared(alloc), "005333c00501a0020102", alloc)
}

#[test]
fn field_of_a_declare(rt: HostRuntime) -> Result<(), Fail> {
    let alloc = rt.alloc();
    check_made(full_declare(alloc), "005331c00401a00103", alloc)
}

#[test]
fn fields_of_a_discharge(rt: HostRuntime) -> Result<(), Fail> {
    let alloc = rt.alloc();
    check_made(
        full_discharge(alloc),
        "005332c00602\
         a0020405\
         41",
        alloc,
    )
}
