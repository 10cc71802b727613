//! Symbols and values that calls make.
use amqp_codec::{Descriptor, Error};
use amqp_described::Described;
use amqp_no_memory_calls::{check, is_symbol, is_text};
use amqp_read_write::from_slice;
use amqp_restricted_types::{DistributionMode, TerminusExpiryPolicy, TxnCapability};
use amqp_simple_values::SimpleValue;
use amqp_values::{IntoValue, Value, ValueMap};
use std::alloc::Global;

/// A map of ten pairs, whose keys begin with the same 32 values, so that they are compared by their order (Part 1, section 1.6.23).
const ALIKE: &[u8] = b"\xd1\x00\x00\x01\x80\x00\x00\x00\x14\
    \xc0#!@@@@@@@@@@@@@@@@@@@@@@@@@@@@@@@@R\x01@\
    \xc0#!@@@@@@@@@@@@@@@@@@@@@@@@@@@@@@@@R\x02@\
    \xc0#!@@@@@@@@@@@@@@@@@@@@@@@@@@@@@@@@R\x03@\
    \xc0#!@@@@@@@@@@@@@@@@@@@@@@@@@@@@@@@@R\x04@\
    \xc0#!@@@@@@@@@@@@@@@@@@@@@@@@@@@@@@@@R\x05@\
    \xc0#!@@@@@@@@@@@@@@@@@@@@@@@@@@@@@@@@R\x06@\
    \xc0#!@@@@@@@@@@@@@@@@@@@@@@@@@@@@@@@@R\x07@\
    \xc0#!@@@@@@@@@@@@@@@@@@@@@@@@@@@@@@@@R\x08@\
    \xc0#!@@@@@@@@@@@@@@@@@@@@@@@@@@@@@@@@R\x09@\
    \xc0#!@@@@@@@@@@@@@@@@@@@@@@@@@@@@@@@@R\x0a@";

/// Makes all of these, and returns whether every call went as it must.
pub(crate) fn check_all(rt: &HostRuntime) -> Result<bool, anyhow::Error> {
    let mut well = check(rt, "expiry policy", "to_symbol", is_policy_named)?;
    well &= check(rt, "distribution mode", "to_symbol", is_mode_named)?;
    well &= check(rt, "capability", "to_symbol", is_capability_named)?;
    well &= check(rt, "simple value", "from_str_in", is_text_held)?;
    well &= check(rt, "described value", "into_value", is_value_made)?;
    well &= check(rt, "map of values", "from_pairs", is_map_made)?;
    Ok(well)
}

fn is_policy_named(alloc: Global) -> Result<bool, Error> {
    is_symbol(
        TerminusExpiryPolicy::LinkDetach.to_symbol(alloc),
        "link-detach",
    )
}

fn is_mode_named(alloc: Global) -> Result<bool, Error> {
    is_symbol(DistributionMode::Move.to_symbol(alloc), "move")
}

fn is_capability_named(alloc: Global) -> Result<bool, Error> {
    let symbol = TxnCapability::LocalTransactions.to_symbol(alloc);
    is_symbol(symbol, "amqp:local-transactions")
}

fn is_text_held(alloc: Global) -> Result<bool, Error> {
    is_text(SimpleValue::from_str_in("a", alloc), b"\xa1\x01a", alloc)
}

fn is_value_made(alloc: Global) -> Result<bool, Error> {
    let described = Described {
        descriptor: Descriptor::Code(5),
        value: Value::Bool(true),
    };
    is_text(described.into_value(alloc), b"\x00\x53\x05\x41", alloc)
}

fn map_of_pairs(alloc: Global) -> Result<ValueMap, Error> {
    let map: ValueMap = from_slice(ALIKE, alloc)?;
    ValueMap::from_pairs(map.into_inner())
}

fn is_map_made(alloc: Global) -> Result<bool, Error> {
    is_text(map_of_pairs(alloc), ALIKE, alloc)
}
