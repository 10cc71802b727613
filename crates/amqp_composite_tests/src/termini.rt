//! A source, a target and a coordinator, their fields by their names (Part 3, section 3.5; Part 4, section 4.5.1). The digits are
//! written out by the standard's tables.
use amqp_full_composites::termini::{full_coordinator, full_source, full_target};
use amqp_test_helpers::check_made;
use std::test::Fail;

#[test]
fn fields_of_a_source(rt: HostRuntime) -> Result<(), Fail> {
    let alloc = rt.alloc();
    check_made(
        full_source(alloc),
        "005328c03f0b\
         a10161\
         5202\
         a3056e65766572\
         5207\
         41\
         c10502a3017041\
         a304636f7079\
         c10502a3016640\
         00532445\
         e00701b3000000016f\
         e00c02b300000001630000000164",
        alloc,
    )
}

#[test]
fn fields_of_a_target(rt: HostRuntime) -> Result<(), Fail> {
    let alloc = rt.alloc();
    check_made(
        full_target(alloc),
        "005329c02a07\
         a10161\
         5201\
         a30b6c696e6b2d646574616368\
         7000011170\
         41\
         c10602a301705209\
         e00701b30000000163",
        alloc,
    )
}

#[test]
fn field_of_a_coordinator(rt: HostRuntime) -> Result<(), Fail> {
    let alloc = rt.alloc();
    check_made(
        full_coordinator(alloc),
        "005330c03b01\
         e03802b300000017616d71703a6c6f63616c2d7472616e73616374696f6e7300000017616d71703a6d756c74692d74786e732d7065722d73736e",
        alloc,
    )
}
