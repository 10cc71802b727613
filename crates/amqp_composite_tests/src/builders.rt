//! Each call of the builders once.
use amqp_codec::{Descriptor, Error, Symbol};
use amqp_containers::Array;
use amqp_delivery::Outcome;
use amqp_described::Described;
use amqp_full_composites::parts::{fields_of, symbol_of, symbols_of, text_of};
use amqp_lifetimes::{DeleteOnClose, LifetimePolicy, SupportedDistModes};
use amqp_plain_states::Accepted;
use amqp_restricted_types::{DistributionMode, TerminusDurability, TerminusExpiryPolicy};
use amqp_termini::{FilterSet, NodeProperties, Source, SourceBuilder, Target, TargetBuilder};
use amqp_test_helpers::{are_equal, check_made, is};
use amqp_values::Value;
use std::alloc::Global;
use std::test::Fail;

fn built_target(alloc: Global) -> Result<Target, Error> {
    let address = text_of("q", alloc)?;
    let properties = fields_of("p", Value::Bool(true), alloc)?;
    let capabilities = symbols_of("c", alloc)?;
    Ok(
        TargetBuilder::new()
            .address(address)
            .durable(TerminusDurability::UnsettledState)
            .expiry_policy(TerminusExpiryPolicy::Never)
            .timeout(7)
            .dynamic(true)
            .dynamic_node_properties(properties)
            .capabilities(capabilities)
            .build(),
    )
}

fn target_of_all_fields(alloc: Global) -> Result<Target, Error> {
    Ok(Target {
        address: Some(text_of("q", alloc)?),
        durable: TerminusDurability::UnsettledState,
        expiry_policy: TerminusExpiryPolicy::Never,
        timeout: 7,
        dynamic: true,
        dynamic_node_properties: Some(fields_of("p", Value::Bool(true), alloc)?),
        capabilities: Some(symbols_of("c", alloc)?),
    })
}

#[test]
fn calls_of_a_target_builder(rt: HostRuntime) -> Result<(), Fail> {
    let alloc = rt.alloc();
    assert!(rt; are_equal(built_target(alloc), target_of_all_fields(alloc))?);
    assert!(rt; is(TargetBuilder::default().build(), Target::default()));
    Ok(())
}

#[derive(Drop)]
struct Maps {
    properties: NodeProperties,
    filter: FilterSet,
}

fn two_maps(alloc: Global) -> Result<Maps, Error> {
    Ok(Maps {
        properties: fields_of("p", Value::Bool(true), alloc)?,
        filter: fields_of("f", Value::Null, alloc)?,
    })
}

#[derive(Drop)]
struct Symbols {
    outcomes: Array<Symbol>,
    capabilities: Array<Symbol>,
}

fn two_arrays(alloc: Global) -> Result<Symbols, Error> {
    Ok(Symbols {
        outcomes: symbols_of("o", alloc)?,
        capabilities: symbols_of("c", alloc)?,
    })
}

fn built_source(alloc: Global) -> Result<Source, Error> {
    let address = text_of("q", alloc)?;
    let maps = two_maps(alloc)?;
    let symbols = two_arrays(alloc)?;
    Ok(
        SourceBuilder::new()
            .address(address)
            .durable(TerminusDurability::UnsettledState)
            .expiry_policy(TerminusExpiryPolicy::Never)
            .timeout(7)
            .dynamic(true)
            .dynamic_node_properties(maps.properties)
            .distribution_mode(DistributionMode::Copy)
            .filter(maps.filter)
            .default_outcome(Outcome::Accepted(Accepted {}))
            .outcomes(symbols.outcomes)
            .capabilities(symbols.capabilities)
            .build(),
    )
}

fn source_of_all_fields(alloc: Global) -> Result<Source, Error> {
    let address = text_of("q", alloc)?;
    let maps = two_maps(alloc)?;
    let symbols = two_arrays(alloc)?;
    Ok(Source {
        address: Some(address),
        durable: TerminusDurability::UnsettledState,
        expiry_policy: TerminusExpiryPolicy::Never,
        timeout: 7,
        dynamic: true,
        dynamic_node_properties: Some(maps.properties),
        distribution_mode: Some(DistributionMode::Copy),
        filter: Some(maps.filter),
        default_outcome: Some(Outcome::Accepted(Accepted {})),
        outcomes: Some(symbols.outcomes),
        capabilities: Some(symbols.capabilities),
    })
}

#[test]
fn calls_of_a_source_builder(rt: HostRuntime) -> Result<(), Fail> {
    let alloc = rt.alloc();
    assert!(rt; are_equal(built_source(alloc), source_of_all_fields(alloc))?);
    assert!(rt; is(SourceBuilder::default().build(), Source::default()));
    Ok(())
}

fn source_of_modes_and_a_lifetime(alloc: Global) -> Result<Source, Error> {
    let modes = SupportedDistModes::new(DistributionMode::Move, alloc)?;
    let builder = Source::builder().add_supported_dist_modes(modes, alloc)?;
    let policy = LifetimePolicy::from(DeleteOnClose::new());
    Ok(builder.add_lifetime_policy(policy, alloc)?.build())
}

#[test]
fn properties_of_a_source(rt: HostRuntime) -> Result<(), Fail> {
    let alloc = rt.alloc();
    // the properties are the sixth field: a map of two pairs
    check_made(
        source_of_modes_and_a_lifetime(alloc),
        "005328c04006404040404\
         0c13804a314737570706f727465642d646973742d6d6f646573e00a01b3000000046d6f7665\
         a30f6c69666574696d652d706f6c69637900532b45",
        alloc,
    )
}

fn add_filter(
    builder: SourceBuilder,
    name: &str,
    value: Option<Described<Value>>,
    alloc: Global,
) -> Result<SourceBuilder, Error> {
    let name = symbol_of(name, alloc)?;
    builder.add_to_filter(name, value, alloc)
}

fn source_of_three_filters(alloc: Global) -> Result<Source, Error> {
    let builder = add_filter(Source::builder(), "a", None, alloc)?;
    let described = Described {
        descriptor: Descriptor::Code(7),
        value: Value::Bool(true),
    };
    let builder = add_filter(builder, "b", Some(described), alloc)?;
    let name = symbol_of("c", alloc)?;
    let builder = builder.add_to_filter_using_legacy_format(name, Value::Bool(false), alloc)?;
    Ok(builder.build())
}

#[test]
fn filters_of_a_source(rt: HostRuntime) -> Result<(), Fail> {
    let alloc = rt.alloc();
    // the filters are the eighth field: a map of three pairs
    check_made(
        source_of_three_filters(alloc),
        "005328c01a0840404040404040c11006a3016140a3016200530741a3016342",
        alloc,
    )
}
