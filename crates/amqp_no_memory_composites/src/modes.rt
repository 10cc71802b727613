//! The modes in which a node distributes its messages (Part 3, section 3.5.9).
use amqp_codec::Error;
use amqp_lifetimes::SupportedDistModes;
use amqp_no_memory_calls::{Growing, check, check_growing, is_text};
use amqp_restricted_types::DistributionMode;
use std::alloc::Global;

/// The mode `move`.
const MODE: &[u8] = b"\xe0\x0a\x01\xb3\x00\x00\x00\x04move";

/// The mode `move`, as a property.
const PROPERTY: &[u8] =
    b"\xc1\x23\x02\xa3\x14supported-dist-modes\xe0\x0a\x01\xb3\x00\x00\x00\x04move";

/// The mode `move`, and five times `copy`.
const MODES: &[u8] =
    b"\xe0\x32\x06\xb3\x00\x00\x00\x04move\x00\x00\x00\x04copy\x00\x00\x00\x04copy\x00\x00\x00\x04copy\x00\x00\x00\x04copy\
    \x00\x00\x00\x04copy";

/// Modes, to which `copy` is added for each number.
struct Modes;

impl Growing for Modes {
    type Grown = SupportedDistModes;

    fn begun(alloc: Global) -> Result<SupportedDistModes, Error> {
        SupportedDistModes::new(DistributionMode::Move, alloc)
    }

    fn grow(grown: &mut SupportedDistModes, _number: u8, _alloc: Global) -> Result<(), Error> {
        grown.add_mode(DistributionMode::Copy)
    }
}

/// Makes all of these, and returns whether every call went as it must.
pub(crate) fn check_all(rt: &HostRuntime) -> Result<bool, anyhow::Error> {
    let mut well = check(rt, "modes", "new", is_new)?;
    well &= check(rt, "modes", "from_mode", is_made_of_a_mode)?;
    well &= check(rt, "modes", "into_value", is_value)?;
    well &= check(rt, "modes", "into_fields", is_property)?;
    well &= check_growing::<Modes>(rt, "modes", "add_mode", MODES)?;
    Ok(well)
}

fn is_new(alloc: Global) -> Result<bool, Error> {
    is_text(Modes::begun(alloc), MODE, alloc)
}

fn is_made_of_a_mode(alloc: Global) -> Result<bool, Error> {
    let modes = SupportedDistModes::from_mode(DistributionMode::Move, alloc);
    is_text(modes, MODE, alloc)
}

fn is_value(alloc: Global) -> Result<bool, Error> {
    let modes = Modes::begun(alloc)?;
    is_text(modes.into_value(alloc), MODE, alloc)
}

fn is_property(alloc: Global) -> Result<bool, Error> {
    let modes = Modes::begun(alloc)?;
    is_text(modes.into_fields(alloc), PROPERTY, alloc)
}
