//! Mechanisms of the security layer: at least one is written.
use crate::written::check_both_ways;
use amqp_codec::{Error, Symbol};
use amqp_containers::Array;
use amqp_sasl::SaslMechanisms;
use amqp_test_helpers::{is_copied, refusal};
use std::alloc::Global;
use std::test::Fail;

// So many symbols `X`.
fn symbols(count: usize, alloc: Global) -> Result<Array<Symbol>, Error> {
    let mut items = Array::from(Vec::new(alloc));
    for _ in 0..count {
        items.push(Symbol::from_str_in("X", alloc)?)?;
    }
    Ok(items)
}

fn mechanisms(count: usize, alloc: Global) -> Result<SaslMechanisms, Error> {
    Ok(SaslMechanisms {
        sasl_server_mechanisms: symbols(count, alloc)?,
    })
}

#[test]
fn mechanisms_are_written(rt: HostRuntime) -> Result<(), Fail> {
    let alloc = rt.alloc();
    assert_eq!(rt;
        refusal(mechanisms(0, alloc)?, alloc),
        Some(Error::EmptyMultiple)
    );
    check_both_ways(
        mechanisms(1, alloc)?,
        "005340c00a01e00701b30000000158",
        alloc,
    )?;
    assert!(rt; is_copied(mechanisms(1, alloc))?);
    Ok(())
}
