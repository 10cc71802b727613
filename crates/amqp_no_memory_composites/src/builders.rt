//! The builders of sources and targets (Part 3, sections 3.5.3 and 3.5.4).
use amqp_codec::{Descriptor, Error, Symbol};
use amqp_described::Described;
use amqp_lifetimes::{DeleteOnClose, LifetimePolicy, SupportedDistModes};
use amqp_no_memory_calls::{check, is_builder_copied, is_text};
use amqp_restricted_types::DistributionMode;
use amqp_termini::{Source, SourceBuilder, Target, TargetBuilder};
use amqp_values::Value;
use std::alloc::Global;

/// A source whose one property is the lifetime until the link is closed.
const SOURCE_OF_A_LIFETIME: &[u8] =
    b"\x00\x53\x28\xc0\x1e\x06\x40\x40\x40\x40\x40\xc1\x16\x02\xa3\x0flifetime-policy\x00\x53\x2b\x45";

/// A source whose one property is the mode `move`.
const SOURCE_OF_A_MODE: &[u8] =
    b"\x00\x53\x28\xc0\x2b\x06\x40\x40\x40\x40\x40\xc1\x23\x02\xa3\x14supported-dist-modes\xe0\x0a\x01\xb3\x00\x00\x00\x04move";

/// A target whose one property is the lifetime until the link is closed.
const TARGET_OF_A_LIFETIME: &[u8] =
    b"\x00\x53\x29\xc0\x1e\x06\x40\x40\x40\x40\x40\xc1\x16\x02\xa3\x0flifetime-policy\x00\x53\x2b\x45";

/// A target whose one property is the mode `move`.
const TARGET_OF_A_MODE: &[u8] =
    b"\x00\x53\x29\xc0\x2b\x06\x40\x40\x40\x40\x40\xc1\x23\x02\xa3\x14supported-dist-modes\xe0\x0a\x01\xb3\x00\x00\x00\x04move";

/// A source whose one filter is null.
const SOURCE_OF_NO_FILTER: &[u8] =
    b"\x00\x53\x28\xc0\x0f\x08\x40\x40\x40\x40\x40\x40\x40\xc1\x05\x02\xa3\x01a\x40";

/// A source whose one filter is a described value.
const SOURCE_OF_A_FILTER: &[u8] =
    b"\x00\x53\x28\xc0\x12\x08\x40\x40\x40\x40\x40\x40\x40\xc1\x08\x02\xa3\x01b\x00\x53\x07\x41";

/// A source whose one filter is a value that isn't described.
const SOURCE_OF_A_PLAIN_FILTER: &[u8] =
    b"\x00\x53\x28\xc0\x0f\x08\x40\x40\x40\x40\x40\x40\x40\xc1\x05\x02\xa3\x01c\x42";

/// Makes all of these, and returns whether every call went as it must.
pub(crate) fn check_all(rt: &HostRuntime) -> Result<bool, anyhow::Error> {
    let mut well = check_properties(rt)?;
    well &= check_filters(rt)?;
    well &= check(rt, "builder of a source", "clone", is_source_copied)?;
    well &= check(rt, "builder of a target", "clone", is_target_copied)?;
    Ok(well)
}

fn check_properties(rt: &HostRuntime) -> Result<bool, anyhow::Error> {
    let mut well = check(rt, "source", "add_lifetime_policy", is_source_of_a_lifetime)?;
    well &= check(
        rt,
        "source",
        "add_supported_dist_modes",
        is_source_of_a_mode,
    )?;
    well &= check(rt, "target", "add_lifetime_policy", is_target_of_a_lifetime)?;
    well &= check(
        rt,
        "target",
        "add_supported_dist_modes",
        is_target_of_a_mode,
    )?;
    Ok(well)
}

fn check_filters(rt: &HostRuntime) -> Result<bool, anyhow::Error> {
    let mut well = check(
        rt,
        "source",
        "add_to_filter, of nothing",
        is_source_of_no_filter,
    )?;
    well &= check(rt, "source", "add_to_filter", is_source_of_a_filter)?;
    well &= check(
        rt,
        "source",
        "add_to_filter_using_legacy_format",
        is_source_of_a_plain_filter,
    )?;
    Ok(well)
}

fn lifetime() -> LifetimePolicy {
    LifetimePolicy::from(DeleteOnClose::new())
}

fn mode(alloc: Global) -> Result<SupportedDistModes, Error> {
    SupportedDistModes::new(DistributionMode::Move, alloc)
}

fn symbol(text: &str, alloc: Global) -> Result<Symbol, Error> {
    Ok(Symbol::from_str_in(text, alloc)?)
}

// Whether the source that is built has this text.
fn is_source(
    builder: Result<SourceBuilder, Error>,
    text: &[u8],
    alloc: Global,
) -> Result<bool, Error> {
    is_text(builder.map(SourceBuilder::build), text, alloc)
}

// Whether the target that is built has this text.
fn is_target(
    builder: Result<TargetBuilder, Error>,
    text: &[u8],
    alloc: Global,
) -> Result<bool, Error> {
    is_text(builder.map(TargetBuilder::build), text, alloc)
}

fn is_source_of_a_lifetime(alloc: Global) -> Result<bool, Error> {
    let builder = Source::builder().add_lifetime_policy(lifetime(), alloc);
    is_source(builder, SOURCE_OF_A_LIFETIME, alloc)
}

fn is_source_of_a_mode(alloc: Global) -> Result<bool, Error> {
    let modes = mode(alloc)?;
    let builder = Source::builder().add_supported_dist_modes(modes, alloc);
    is_source(builder, SOURCE_OF_A_MODE, alloc)
}

fn is_target_of_a_lifetime(alloc: Global) -> Result<bool, Error> {
    let builder = Target::builder().add_lifetime_policy(lifetime(), alloc);
    is_target(builder, TARGET_OF_A_LIFETIME, alloc)
}

fn is_target_of_a_mode(alloc: Global) -> Result<bool, Error> {
    let modes = mode(alloc)?;
    let builder = Target::builder().add_supported_dist_modes(modes, alloc);
    is_target(builder, TARGET_OF_A_MODE, alloc)
}

fn is_source_of_no_filter(alloc: Global) -> Result<bool, Error> {
    let name = symbol("a", alloc)?;
    let builder = Source::builder().add_to_filter(name, None, alloc);
    is_source(builder, SOURCE_OF_NO_FILTER, alloc)
}

fn is_source_of_a_filter(alloc: Global) -> Result<bool, Error> {
    let name = symbol("b", alloc)?;
    let filter = Described {
        descriptor: Descriptor::Code(7),
        value: Value::Bool(true),
    };
    let builder = Source::builder().add_to_filter(name, Some(filter), alloc);
    is_source(builder, SOURCE_OF_A_FILTER, alloc)
}

fn is_source_of_a_plain_filter(alloc: Global) -> Result<bool, Error> {
    let name = symbol("c", alloc)?;
    let builder = Source::builder().add_to_filter_using_legacy_format(
        name,
        Value::Bool(false),
        alloc,
    );
    is_source(builder, SOURCE_OF_A_PLAIN_FILTER, alloc)
}

// A builder of a source that has an address.
fn source_builder(alloc: Global) -> Result<SourceBuilder, Error> {
    let address = String::from_str(alloc, "a")?;
    Ok(Source::builder().address(address))
}

fn is_source_copied(alloc: Global) -> Result<bool, Error> {
    is_builder_copied(source_builder(alloc), SourceBuilder::build)
}

// A builder of a target that has an address.
fn target_builder(alloc: Global) -> Result<TargetBuilder, Error> {
    let address = String::from_str(alloc, "a")?;
    Ok(Target::builder().address(address))
}

fn is_target_copied(alloc: Global) -> Result<bool, Error> {
    is_builder_copied(target_builder(alloc), TargetBuilder::build)
}
