//! Values of the primitive and of the restricted types as keys of maps: equal ones have equal hashes.
use amqp_batches::TransparentVec;
use amqp_codec::{Descriptor, Error, MapKey};
use amqp_containers::Array;
use amqp_described::Described;
use amqp_maps::OrderedMap;
use amqp_primitives::{Binary, Dec32, Dec64, Dec128, Timestamp, Uuid};
use amqp_restricted_types::{
    DistributionMode, ReceiverSettleMode, Role, SaslCode, SenderSettleMode, TerminusDurability,
    TerminusExpiryPolicy, TxnCapability,
};
use amqp_test_helpers::{hash_of, have_equal_hashes};
use std::alloc::Global;
use std::hash::Hash;
use std::test::Fail;

// In a map from the key to 1, what is equal to the key is found, and what isn't is no key.
fn check_key<K: MapKey>(key: K, equal: K, other: K, alloc: Global) -> Result<(), Fail> {
    let mut map: OrderedMap<K, u32> = OrderedMap::new(alloc);
    map.insert(key, 1)?;
    if map.get(&equal) != Some(&1) || map.get(&other).is_some() {
        return Err(Fail::new(format_args!("a key is found otherwise")));
    }
    Ok(())
}

#[test]
fn primitives_of_a_known_width(rt: HostRuntime) -> Result<(), Fail> {
    let alloc = rt.alloc();
    check_key(Dec32([1; 4]), Dec32([1; 4]), Dec32([2; 4]), alloc)?;
    check_key(Dec64([1; 8]), Dec64([1; 8]), Dec64([2; 8]), alloc)?;
    check_key(Dec128([1; 16]), Dec128([1; 16]), Dec128([2; 16]), alloc)?;
    check_key(Uuid([1; 16]), Uuid([1; 16]), Uuid([2; 16]), alloc)?;
    check_key(Timestamp(1), Timestamp(1), Timestamp(-1), alloc)?;
    check_key('a', 'a', 'b', alloc)?;
    check_key(true, true, false, alloc)
}

fn binary(bytes: &[u8], alloc: Global) -> Result<Binary, Error> {
    Ok(Binary(Vec::from_slice(alloc, bytes)?))
}

#[test]
fn binaries(rt: HostRuntime) -> Result<(), Fail> {
    let alloc = rt.alloc();
    let key = binary(&[1, 2], alloc)?;
    check_key(key, binary(&[1, 2], alloc)?, binary(&[1], alloc)?, alloc)
}

#[test]
fn restricted_numbers(rt: HostRuntime) -> Result<(), Fail> {
    let alloc = rt.alloc();
    check_key(Role::Sender, Role::Sender, Role::Receiver, alloc)?;
    check_key(
        SenderSettleMode::Settled,
        SenderSettleMode::Settled,
        SenderSettleMode::Mixed,
        alloc,
    )?;
    check_key(
        ReceiverSettleMode::Second,
        ReceiverSettleMode::Second,
        ReceiverSettleMode::First,
        alloc,
    )?;
    check_key(
        TerminusDurability::None,
        TerminusDurability::None,
        TerminusDurability::Configuration,
        alloc,
    )?;
    check_key(SaslCode::Ok, SaslCode::Ok, SaslCode::Auth, alloc)
}

#[test]
fn restricted_texts(rt: HostRuntime) -> Result<(), Fail> {
    let alloc = rt.alloc();
    check_key(
        TerminusExpiryPolicy::Never,
        TerminusExpiryPolicy::Never,
        TerminusExpiryPolicy::SessionEnd,
        alloc,
    )?;
    check_key(
        DistributionMode::Copy,
        DistributionMode::Copy,
        DistributionMode::Move,
        alloc,
    )?;
    check_key(
        TxnCapability::LocalTransactions,
        TxnCapability::LocalTransactions,
        TxnCapability::MultiTxnsPerSsn,
        alloc,
    )
}

fn array(items: &[u32], alloc: Global) -> Result<Array<u32>, Error> {
    Ok(Array::from(Vec::from_slice(alloc, items)?))
}

fn values(items: &[u32], alloc: Global) -> Result<TransparentVec<u32>, Error> {
    Ok(TransparentVec::from(Vec::from_slice(alloc, items)?))
}

fn described(value: u32) -> Described<u32> {
    Described {
        descriptor: Descriptor::Code(5),
        value,
    }
}

// Whether a copy of the value has its hash.
fn has_copy_its_hash<T: Clone + Hash + Drop>(value: Result<T, Error>) -> Result<bool, Error> {
    let value = value?;
    let copy = value.clone()?;
    Ok(hash_of(&copy) == hash_of(&value))
}

#[test]
fn equal_containers_have_equal_hashes(rt: HostRuntime) -> Result<(), Fail> {
    let alloc = rt.alloc();
    assert!(rt; has_copy_its_hash(array(&[1, 2], alloc))?);
    assert!(rt; !have_equal_hashes(array(&[1, 2], alloc), array(&[2, 1], alloc))?);
    assert!(rt; has_copy_its_hash(values(&[1, 2], alloc))?);
    assert!(rt; !have_equal_hashes(values(&[1, 2], alloc), values(&[2, 1], alloc))?);
    assert!(rt; have_equal_hashes(Ok(described(7)), Ok(described(7)))?);
    assert!(rt; !have_equal_hashes(Ok(described(7)), Ok(described(8)))?);
    Ok(())
}
