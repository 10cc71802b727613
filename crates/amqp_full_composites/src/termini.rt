//! Sources, targets and coordinators with a value in every field.
use crate::parts::{fields_of, symbols_of, text_of, two_symbols_of};
use amqp_codec::{Error as CodecError, Symbol};
use amqp_containers::Array;
use amqp_delivery::Outcome;
use amqp_plain_states::Accepted;
use amqp_restricted_types::{
    DistributionMode, TerminusDurability, TerminusExpiryPolicy, TxnCapability,
};
use amqp_termini::{Coordinator, FilterSet, NodeProperties, Source, Target};
use amqp_values::Value;
use std::alloc::Global;

#[derive(Drop)]
struct SourceMaps {
    properties: NodeProperties,
    filter: FilterSet,
}

fn full_source_maps(alloc: Global) -> Result<SourceMaps, CodecError> {
    Ok(SourceMaps {
        properties: fields_of("p", Value::Bool(true), alloc)?,
        filter: fields_of("f", Value::Null, alloc)?,
    })
}

#[derive(Drop)]
struct SourceSymbols {
    outcomes: Array<Symbol>,
    capabilities: Array<Symbol>,
}

fn full_source_symbols(alloc: Global) -> Result<SourceSymbols, CodecError> {
    Ok(SourceSymbols {
        outcomes: symbols_of("o", alloc)?,
        capabilities: two_symbols_of("c", "d", alloc)?,
    })
}

/// Returns a source with a value in every field (Part 3, section 3.5.3).
pub fn full_source(alloc: Global) -> Result<Source, CodecError> {
    let address = text_of("a", alloc)?;
    let maps = full_source_maps(alloc)?;
    let symbols = full_source_symbols(alloc)?;
    Ok(Source {
        address: Some(address),
        durable: TerminusDurability::UnsettledState,
        expiry_policy: TerminusExpiryPolicy::Never,
        timeout: 7,
        dynamic: true,
        dynamic_node_properties: Some(maps.properties),
        distribution_mode: Some(DistributionMode::Copy),
        filter: Some(maps.filter),
        default_outcome: Some(Outcome::Accepted(Accepted {})),
        outcomes: Some(symbols.outcomes),
        capabilities: Some(symbols.capabilities),
    })
}

/// Returns a target with a value in every field (Part 3, section 3.5.4).
pub fn full_target(alloc: Global) -> Result<Target, CodecError> {
    Ok(Target {
        address: Some(text_of("a", alloc)?),
        durable: TerminusDurability::Configuration,
        expiry_policy: TerminusExpiryPolicy::LinkDetach,
        timeout: 70000,
        dynamic: true,
        dynamic_node_properties: Some(fields_of("p", Value::Uint(9), alloc)?),
        capabilities: Some(symbols_of("c", alloc)?),
    })
}

/// Returns a coordinator with a value in every field (Part 4, section 4.5.1).
pub fn full_coordinator(alloc: Global) -> Result<Coordinator, CodecError> {
    let mut capabilities = Array::from(Vec::new(alloc));
    capabilities.push(TxnCapability::LocalTransactions)?;
    capabilities.push(TxnCapability::MultiTxnsPerSsn)?;
    Ok(Coordinator {
        capabilities: Some(capabilities),
    })
}
