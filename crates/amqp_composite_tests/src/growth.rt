//! Builders while an allocation fails. Each allocation fails in turn by hand: `rt try --test --fail-alloc N`, for N from 1 on.
use amqp_codec::Error;
use amqp_lifetimes::{DeleteOnClose, LifetimePolicy, SupportedDistModes};
use amqp_read_write::to_vec;
use amqp_restricted_types::DistributionMode;
use amqp_termini::{Target, TargetBuilder};
use amqp_test_helpers::check_made;
use std::alloc::Global;
use std::test::Fail;

fn built(alloc: Global) -> Result<Target, Error> {
    let policy = LifetimePolicy::from(DeleteOnClose::new());
    let builder = TargetBuilder::new().add_lifetime_policy(policy, alloc)?;
    let modes = SupportedDistModes::new(DistributionMode::Move, alloc)?;
    Ok(builder.add_supported_dist_modes(modes, alloc)?.build())
}

// Where a growth is refused, that is the error; and the next time, when none is, the target has both properties.
fn built_again(alloc: Global) -> Result<Target, Error> {
    match built(alloc) {
        Err(Error::Memory) => built(alloc),
        first => first,
    }
}

#[test]
fn both_properties(rt: HostRuntime) -> Result<(), Fail> {
    check_made(
        built_again(rt.alloc()),
        "005329c040064040404040c13804a30f6c69666574696d652d706f6c69637900532b45\
         a314737570706f727465642d646973742d6d6f646573e00a01b3000000046d6f7665",
        rt.alloc(),
    )
}

// The modes, also where memory is refused once.
fn moving(alloc: Global) -> Result<SupportedDistModes, Error> {
    match SupportedDistModes::new(DistributionMode::Move, alloc) {
        Err(Error::Memory) => SupportedDistModes::new(DistributionMode::Move, alloc),
        first => first,
    }
}

// The text, also where memory is refused once.
fn canonical(modes: &SupportedDistModes, alloc: Global) -> Result<Vec<u8>, Error> {
    match to_vec(modes, alloc) {
        Err(Error::Memory) => to_vec(modes, alloc),
        first => first,
    }
}

// Whether the modes have this text.
fn are_written(modes: &SupportedDistModes, text: &[u8], alloc: Global) -> Result<bool, Error> {
    let written = canonical(modes, alloc)?;
    Ok(written.as_slice() == text)
}

// Whether one more mode is taken, or finds no memory and leaves the modes as they were.
fn is_added_or_kept(modes: &mut SupportedDistModes, alloc: Global) -> Result<bool, Error> {
    let before = canonical(modes, alloc)?;
    match modes.add_mode(DistributionMode::Copy) {
        Ok(()) => Ok(true),
        Err(Error::Memory) => are_written(modes, before.as_slice(), alloc),
        Err(_) => Ok(false),
    }
}

// A mode that finds no memory leaves the modes as they were.
#[test]
fn modes_kept(rt: HostRuntime) -> Result<(), Fail> {
    let alloc = rt.alloc();
    let mut modes = moving(alloc)?;
    for _ in 0..8 {
        assert!(rt; is_added_or_kept(&mut modes, alloc)?);
    }
    Ok(())
}
