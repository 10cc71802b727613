//! A copy of each primitive and of each restricted type is equal to it.
use amqp_codec::{Descriptor, Error, Symbol};
use amqp_primitives::{Binary, Dec32, Dec64, Dec128, SymbolRef, Timestamp, Uuid};
use amqp_restricted_types::{
    ChannelMax, ConnectionState, DistributionMode, Handle, MaxFrameSize, ReceiverSettleMode, Role,
    SaslCode, SenderSettleMode, SessionState, TerminusDurability, TerminusExpiryPolicy,
    TxnCapability,
};
use amqp_test_helpers::is_copied;
use std::alloc::Global;
use std::test::Fail;

fn are_primitives_copied() -> Result<bool, Error> {
    Ok(
        is_copied(Ok(Dec32([1; 4])))?
            && is_copied(Ok(Dec64([2; 8])))?
            && is_copied(Ok(Dec128([3; 16])))?
            && is_copied(Ok(Uuid([4; 16])))?
            && is_copied(Ok(Timestamp(-1)))?
            && is_copied(Ok(SymbolRef("s")))?
            && is_copied(Ok(Descriptor::Code(7)))?,
    )
}

fn binary(alloc: Global) -> Result<Binary, Error> {
    Ok(Binary(Vec::from_array(alloc, [5, 6])?))
}

fn symbol(text: &str, alloc: Global) -> Result<Symbol, Error> {
    Ok(Symbol::from_str_in(text, alloc)?)
}

#[test]
fn copies_of_primitives(rt: HostRuntime) -> Result<(), Fail> {
    let alloc = rt.alloc();
    assert!(rt; are_primitives_copied()?);
    assert!(rt; is_copied(binary(alloc))?);
    assert!(rt; is_copied(symbol("s", alloc))?);
    assert!(rt; is_copied(symbol("n", alloc).map(Descriptor::Name))?);
    Ok(())
}

fn are_numbers_copied() -> Result<bool, Error> {
    Ok(
        is_copied(Ok(Role::Receiver))?
            && is_copied(Ok(SenderSettleMode::Settled))?
            && is_copied(Ok(ReceiverSettleMode::Second))?
            && is_copied(Ok(TerminusDurability::Configuration))?
            && is_copied(Ok(SaslCode::SysPerm))?
            && is_copied(Ok(Handle(7)))?
            && is_copied(Ok(MaxFrameSize(512)))?
            && is_copied(Ok(ChannelMax(9)))?,
    )
}

#[test]
fn copies_of_numbers(rt: HostRuntime) -> Result<(), Fail> {
    assert!(rt; are_numbers_copied()?);
    Ok(())
}

fn are_texts_copied() -> Result<bool, Error> {
    Ok(
        is_copied(Ok(TerminusExpiryPolicy::ConnectionClose))?
            && is_copied(Ok(DistributionMode::Copy))?
            && is_copied(Ok(TxnCapability::MultiTxnsPerSsn))?,
    )
}

#[test]
fn copies_of_texts(rt: HostRuntime) -> Result<(), Fail> {
    assert!(rt; are_texts_copied()?);
    Ok(())
}

#[test]
fn copies_of_states(rt: HostRuntime) -> Result<(), Fail> {
    let copy = ConnectionState::OpenClosePipe.clone()?;
    assert!(rt; matches!(&copy, ConnectionState::OpenClosePipe));
    let copy = SessionState::Mapped.clone()?;
    assert!(rt; matches!(&copy, SessionState::Mapped));
    Ok(())
}
