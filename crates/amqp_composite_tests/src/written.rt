//! What is written, and which targets of both kinds are returned.
use amqp_codec::{Deserialize, Error, Serialize};
use amqp_containers::Array;
use amqp_full_composites::parts::text_of;
use amqp_lifetimes::{
    DeleteOnClose, DeleteOnNoLinks, DeleteOnNoLinksOrMessages, DeleteOnNoMessages, LifetimePolicy,
    SupportedDistModes,
};
use amqp_read_write::{from_slice, to_vec};
use amqp_restricted_types::{DistributionMode, TxnCapability};
use amqp_termini::{Coordinator, Source, Target, TargetArchetype, TargetBuilder};
use amqp_test_helpers::{are_equal, check_made, is_refused};
use amqp_values::Value;
use std::alloc::Global;
use std::test::Fail;

#[test]
fn source_of_an_address(rt: HostRuntime) -> Result<(), Fail> {
    let alloc = rt.alloc();
    check_made(Ok(Source::default()), "00532845", alloc)?;
    check_made(Ok(Target::default()), "00532945", alloc)?;
    let source = text_of("q1", alloc).map(Source::from);
    check_made(source, "005328c00501a1027131", alloc)
}

fn closing(alloc: Global) -> Result<TargetBuilder, Error> {
    Target::builder().add_lifetime_policy(LifetimePolicy::from(DeleteOnClose::new()), alloc)
}

fn closing_target(alloc: Global) -> Result<Target, Error> {
    let TargetBuilder { target } = closing(alloc)?;
    Ok(target)
}

// The lifetime takes the place of the other one.
fn unlinked_target(alloc: Global) -> Result<Target, Error> {
    let unlinked = LifetimePolicy::from(DeleteOnNoLinks::new());
    Ok(
        closing(alloc)?
            .add_lifetime_policy(unlinked, alloc)?
            .build(),
    )
}

#[test]
fn target_of_a_lifetime(rt: HostRuntime) -> Result<(), Fail> {
    let alloc = rt.alloc();
    check_made(
        closing_target(alloc),
        "005329c01e064040404040c11602a30f6c69666574696d652d706f6c69637900532b45",
        alloc,
    )?;
    check_made(
        unlinked_target(alloc),
        "005329c01e064040404040c11602a30f6c69666574696d652d706f6c69637900532c45",
        alloc,
    )
}

fn without_messages() -> LifetimePolicy {
    LifetimePolicy::from(DeleteOnNoMessages::new())
}

fn value_of_a_copy(policy: LifetimePolicy, alloc: Global) -> Result<Value, Error> {
    policy.clone()?.into_value(alloc)
}

#[test]
fn lifetimes_as_values(rt: HostRuntime) -> Result<(), Fail> {
    let alloc = rt.alloc();
    check_made(DeleteOnClose::new().into_value(alloc), "00532b45", alloc)?;
    check_made(DeleteOnNoLinks::new().into_value(alloc), "00532c45", alloc)?;
    check_made(
        DeleteOnNoMessages::new().into_value(alloc),
        "00532d45",
        alloc,
    )?;
    check_made(
        DeleteOnNoLinksOrMessages::new().into_value(alloc),
        "00532e45",
        alloc,
    )?;
    check_made(
        value_of_a_copy(without_messages(), alloc),
        "00532d45",
        alloc,
    )?;
    check_made(
        without_messages().into_fields(alloc),
        "c11602a30f6c69666574696d652d706f6c69637900532d45",
        alloc,
    )
}

fn moving(alloc: Global) -> Result<SupportedDistModes, Error> {
    SupportedDistModes::new(DistributionMode::Move, alloc)
}

fn moving_and_copying(alloc: Global) -> Result<SupportedDistModes, Error> {
    let mut modes = moving(alloc)?;
    modes.add_mode(DistributionMode::Copy)?;
    Ok(modes)
}

// What the text of a value is read as.
fn read_again<T: Serialize + Deserialize>(
    made: Result<T, Error>,
    alloc: Global,
) -> Result<T, Error> {
    let value = made?;
    let text = to_vec(&value, alloc)?;
    from_slice(text.as_slice(), alloc)
}

#[test]
fn supported_modes(rt: HostRuntime) -> Result<(), Fail> {
    let alloc = rt.alloc();
    let from_mode = || SupportedDistModes::from_mode(DistributionMode::Move, alloc);
    check_made(moving(alloc), "e00a01b3000000046d6f7665", alloc)?;
    assert!(rt; are_equal(moving(alloc), from_mode())?);
    assert!(rt; !are_equal(moving_and_copying(alloc), from_mode())?);
    let text = "e01202b3000000046d6f766500000004636f7079";
    check_made(moving_and_copying(alloc), text, alloc)?;
    let again = || read_again(moving_and_copying(alloc), alloc);
    assert!(rt; are_equal(again(), moving_and_copying(alloc))?);
    check_made(again()?.into_value(alloc), text, alloc)?;
    check_made(
        moving_and_copying(alloc)?.into_fields(alloc),
        "c12b02a314737570706f727465642d646973742d6d6f646573e01202b3000000046d6f766500000004636f7079",
        alloc,
    )
}

fn are_no_modes_given_back(alloc: Global) -> bool {
    let none: Array<DistributionMode> = Array::from(Vec::new(alloc));
    match SupportedDistModes::try_from_modes(none) {
        Ok(_) => false,
        Err(array) => array.is_empty(),
    }
}

fn copying(alloc: Global) -> Result<Array<DistributionMode>, Error> {
    let mut some = Array::from(Vec::new(alloc));
    some.push(DistributionMode::Copy)?;
    Ok(some)
}

#[test]
fn modes_of_an_array(rt: HostRuntime) -> Result<(), Fail> {
    let alloc = rt.alloc();
    assert!(rt; are_no_modes_given_back(alloc));
    match SupportedDistModes::try_from_modes(copying(alloc)?) {
        Ok(modes) => check_made(Ok(modes), "e00a01b300000004636f7079", alloc),
        Err(_) => Err(Fail::new(format_args!("a mode is given back"))),
    }
}

// Whether the target is not of the other kind, which gives it back, and this is taken out of it.
fn is_taken_back<
    Other: TryFrom<TargetArchetype, Error = TargetArchetype> + Drop,
    T: TryFrom<TargetArchetype, Error = TargetArchetype> + PartialEq + Drop,
>(target: Result<TargetArchetype, Error>, wanted: Result<T, Error>) -> Result<bool, Error> {
    let wanted = wanted?;
    let Err(given_back) = Other::try_from(target?) else {
        return Ok(false);
    };
    match T::try_from(given_back) {
        Ok(taken) => Ok(taken == wanted),
        Err(_) => Ok(false),
    }
}

fn coordinator(alloc: Global) -> Result<Coordinator, Error> {
    let mut capabilities = Array::from(Vec::new(alloc));
    capabilities.push(TxnCapability::LocalTransactions)?;
    Ok(Coordinator::new(Some(capabilities)))
}

#[test]
fn targets_taken_back(rt: HostRuntime) -> Result<(), Fail> {
    let alloc = rt.alloc();
    let target = text_of("q1", alloc).map(TargetArchetype::from);
    let wanted = text_of("q1", alloc).map(Target::from);
    assert!(rt; is_taken_back::<Coordinator, Target>(target, wanted)?);
    let target = coordinator(alloc).map(TargetArchetype::from);
    assert!(rt; is_taken_back::<Target, Coordinator>(target, coordinator(alloc))?);
    let refused: Result<TargetArchetype, Error> = from_slice(&[0x00, 0x53, 0x28, 0x45], alloc);
    assert!(rt; is_refused(refused, Error::WrongDescriptor));
    Ok(())
}
