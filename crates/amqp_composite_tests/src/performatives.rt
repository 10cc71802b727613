//! Each performative once, its fields by their names (Part 2, section 2.7). The digits are written out by the standard's tables, a
//! line for the descriptor, the size and the count of the list, and a line for each field.
use amqp_full_composites::performatives::{
    full_attach, full_begin, full_close, full_detach, full_disposition, full_end, full_flow,
    full_open, full_transfer,
};
use amqp_performatives::{Disposition, Flow, Transfer};
use amqp_restricted_types::Role;
use amqp_test_helpers::check_made;
use std::test::Fail;

#[test]
fn fields_of_an_open(rt: HostRuntime) -> Result<(), Fail> {
    let alloc = rt.alloc();
    check_made(
        full_open(alloc),
        "005310c0490a\
         a10163\
         a10168\
         7000000200\
         600009\
         7000007530\
         e00801b300000002656e\
         e00e02b3000000026465000000026672\
         e00701b3000000016f\
         e00701b30000000164\
         c10702a30170a10176",
        alloc,
    )
}

#[test]
fn fields_of_a_begin(rt: HostRuntime) -> Result<(), Fail> {
    let alloc = rt.alloc();
    check_made(
        full_begin(alloc),
        "005311c02e08\
         600003\
         5204\
         70000001f4\
         5206\
         5207\
         e00701b3000000016f\
         e00c02b300000001640000000165\
         c10602a301705208",
        alloc,
    )
}

#[test]
fn fields_of_an_attach(rt: HostRuntime) -> Result<(), Fail> {
    let alloc = rt.alloc();
    check_made(
        full_attach(alloc),
        "005312c04c0e\
         a1046c696e6b\
         5202\
         42\
         5000\
         5001\
         005328c00401a10173\
         005329c00401a10174\
         c10c04a0010100532445a0010240\
         41\
         520a\
         530b\
         e00701b3000000016f\
         e00701b30000000164\
         c10502a3017042",
        alloc,
    )
}

fn without_drain(flow: Flow) -> Flow {
    Flow {
        drain: false,
        ..flow
    }
}

// Drain and echo are both true, so it is also written without drain.
#[test]
fn fields_of_a_flow(rt: HostRuntime) -> Result<(), Fail> {
    let alloc = rt.alloc();
    check_made(
        full_flow(alloc),
        "005313c01e0b\
         5201\
         5202\
         5203\
         7000000190\
         5205\
         5206\
         5207\
         5208\
         41\
         41\
         c10602a301705209",
        alloc,
    )?;
    check_made(
        full_flow(alloc).map(without_drain),
        "005313c01e0b520152025203700000019052055206520752084041c10602a301705209",
        alloc,
    )
}

fn whole(transfer: Transfer) -> Transfer {
    Transfer {
        more: false,
        aborted: false,
        ..transfer
    }
}

fn begun(transfer: Transfer) -> Transfer {
    Transfer {
        resume: false,
        aborted: false,
        ..transfer
    }
}

// Four of the fields are true, so it is also written without two of them, and without other two.
#[test]
fn fields_of_a_transfer(rt: HostRuntime) -> Result<(), Fail> {
    let alloc = rt.alloc();
    check_made(
        full_transfer(alloc),
        "005314c0160b\
         5201\
         5202\
         a0020304\
         5205\
         42\
         41\
         5001\
         00532445\
         41\
         41\
         41",
        alloc,
    )?;
    check_made(
        full_transfer(alloc).map(whole),
        "005314c0160b52015202a002030452054240500100532445414041",
        alloc,
    )?;
    check_made(
        full_transfer(alloc).map(begun),
        "005314c0160b52015202a002030452054241500100532445404041",
        alloc,
    )
}

fn unsettled_by_the_sender() -> Disposition {
    Disposition {
        role: Role::Sender,
        settled: false,
        ..full_disposition()
    }
}

// Role, settled and batchable are all written as true, so it is also written with another role and without settled.
#[test]
fn fields_of_a_disposition(rt: HostRuntime) -> Result<(), Fail> {
    let alloc = rt.alloc();
    check_made(
        Ok(full_disposition()),
        "005315c00c06\
         41\
         5201\
         5202\
         41\
         00532645\
         41",
        alloc,
    )?;
    check_made(
        Ok(unsettled_by_the_sender()),
        "005315c00c064252015202400053264541",
        alloc,
    )
}

#[test]
fn fields_of_a_detach(rt: HostRuntime) -> Result<(), Fail> {
    let alloc = rt.alloc();
    check_made(
        full_detach(alloc),
        "005316c01003\
         5203\
         41\
         00531dc00702a30178a10179",
        alloc,
    )
}

#[test]
fn field_of_an_end(rt: HostRuntime) -> Result<(), Fail> {
    let alloc = rt.alloc();
    check_made(
        full_end(alloc),
        "005317c00d0100531dc00702a30178a10179",
        alloc,
    )
}

#[test]
fn field_of_a_close(rt: HostRuntime) -> Result<(), Fail> {
    let alloc = rt.alloc();
    check_made(
        full_close(alloc),
        "005318c00d0100531dc00702a30178a10179",
        alloc,
    )
}
