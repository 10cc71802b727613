//! Restricted types: the value that each number or text is, and the calls of each type.
use crate::written::{check_both_ways, check_read};
use amqp_codec::{Deserialize, Error, Serialize, Symbol};
use amqp_read_write::{from_slice, to_vec};
use amqp_restricted_types::{
    DistributionMode, Handle, ReceiverSettleMode, Role, SaslCode, SenderSettleMode,
    TerminusDurability, TerminusExpiryPolicy, TxnCapability,
};
use amqp_test_helpers::{is, is_less};
use std::alloc::Global;
use std::test::Fail;

fn symbol(text: &str, alloc: Global) -> Result<Symbol, Error> {
    Ok(Symbol::from_str_in(text, alloc)?)
}

// The digits of a symbol's canonical spelling.
fn spelled(text: &str, alloc: Global) -> Result<String, Fail> {
    let spelling = to_vec(&symbol(text, alloc)?, alloc)?;
    Ok(hex::encode(alloc, &spelling)?)
}

// The value is spelled as the symbol of this text, and is what the text is taken for.
fn check_spelled<'a, T: TryFrom<&'a str, Error = &'a str> + Serialize + Deserialize + PartialEq>(
    value: T,
    text: &'a str,
    alloc: Global,
) -> Result<(), Fail> {
    let digits = spelled(text, alloc)?;
    check_read(digits.as_str(), T::try_from(text)?, alloc)?;
    check_both_ways(value, digits.as_str(), alloc)
}

// Whether the symbol has this text, and is taken for the value.
fn is_symbol_of<T: TryFrom<Symbol, Error = Symbol> + PartialEq + Drop>(
    symbol: Result<Symbol, Error>,
    text: &str,
    wanted: T,
) -> Result<bool, Error> {
    let symbol = symbol?;
    Ok(symbol.as_str() == text && is(T::try_from(symbol).ok(), Some(wanted)))
}

// Whether the symbol of this text is given back, since it is none of the type's.
fn is_given_back<T: TryFrom<Symbol, Error = Symbol> + Drop>(
    text: &str,
    alloc: Global,
) -> Result<bool, Error> {
    let given = T::try_from(symbol(text, alloc)?).err();
    Ok(given.is_some_and(|symbol| symbol.as_str() == text))
}

// Whether the role is that of a receiver, or not, and is what is made of that.
fn is_role(role: Role, receives: bool) -> bool {
    Role::from(bool::from(&role)) == role && bool::from(role) == receives
}

#[test]
fn roles(rt: HostRuntime) -> Result<(), Fail> {
    check_both_ways(Role::Sender, "42", rt.alloc())?;
    check_both_ways(Role::Receiver, "41", rt.alloc())?;
    assert!(rt; is_role(Role::Sender, false) && is_role(Role::Receiver, true));
    assert!(rt; is_less(Ok(Role::Sender), Ok(Role::Receiver))?);
    Ok(())
}

fn is_sender_mode(mode: SenderSettleMode, number: u8) -> bool {
    u8::from(&mode) == number && u8::from(mode) == number
}

fn is_receiver_mode(mode: ReceiverSettleMode, number: u8) -> bool {
    u8::from(&mode) == number && u8::from(mode) == number
}

fn have_modes_their_numbers() -> bool {
    is_sender_mode(SenderSettleMode::Unsettled, 0)
        && is_sender_mode(SenderSettleMode::Settled, 1)
        && is_sender_mode(SenderSettleMode::default(), 2)
        && is_receiver_mode(ReceiverSettleMode::default(), 0)
        && is_receiver_mode(ReceiverSettleMode::Second, 1)
}

#[test]
fn settle_modes(rt: HostRuntime) -> Result<(), Fail> {
    let alloc = rt.alloc();
    check_both_ways(SenderSettleMode::Unsettled, "5000", alloc)?;
    check_both_ways(SenderSettleMode::Settled, "5001", alloc)?;
    check_both_ways(SenderSettleMode::default(), "5002", alloc)?;
    check_both_ways(ReceiverSettleMode::default(), "5000", alloc)?;
    check_both_ways(ReceiverSettleMode::Second, "5001", alloc)?;
    assert!(rt; have_modes_their_numbers());
    Ok(())
}

#[test]
fn durabilities(rt: HostRuntime) -> Result<(), Fail> {
    let alloc = rt.alloc();
    check_both_ways(TerminusDurability::default(), "43", alloc)?;
    check_both_ways(TerminusDurability::None, "43", alloc)?;
    check_both_ways(TerminusDurability::Configuration, "5201", alloc)?;
    check_both_ways(TerminusDurability::UnsettledState, "5202", alloc)
}

// The policy has this text, as a text and as a symbol, and is spelled so.
fn check_policy(policy: TerminusExpiryPolicy, text: &str, alloc: Global) -> Result<(), Fail> {
    let symbol = policy.to_symbol(alloc);
    let is_text = policy.as_str() == text;
    if !is_text || !is_symbol_of(symbol, text, policy.clone()?)? {
        return Err(Fail::new(format_args!("{text} is no policy")));
    }
    check_spelled(policy, text, alloc)
}

#[test]
fn expiry_policies(rt: HostRuntime) -> Result<(), Fail> {
    let alloc = rt.alloc();
    check_policy(TerminusExpiryPolicy::LinkDetach, "link-detach", alloc)?;
    check_policy(TerminusExpiryPolicy::default(), "session-end", alloc)?;
    check_policy(
        TerminusExpiryPolicy::ConnectionClose,
        "connection-close",
        alloc,
    )?;
    check_policy(TerminusExpiryPolicy::Never, "never", alloc)
}

#[test]
fn modes_and_capabilities(rt: HostRuntime) -> Result<(), Fail> {
    let alloc = rt.alloc();
    check_spelled(DistributionMode::Move, "move", alloc)?;
    check_spelled(DistributionMode::Copy, "copy", alloc)?;
    let local = TxnCapability::LocalTransactions;
    check_spelled(local, "amqp:local-transactions", alloc)?;
    let distributed = TxnCapability::DistributedTransactions;
    check_spelled(distributed, "amqp:distributed-transactions", alloc)?;
    let promotable = TxnCapability::PromotableTransactions;
    check_spelled(promotable, "amqp:promotable-transactions", alloc)?;
    let transactions = TxnCapability::MultiTxnsPerSsn;
    check_spelled(transactions, "amqp:multi-txns-per-ssn", alloc)?;
    let sessions = TxnCapability::MultiSsnsPerTxn;
    check_spelled(sessions, "amqp:multi-ssns-per-txn", alloc)
}

fn is_mode(mode: DistributionMode, text: &str, alloc: Global) -> Result<bool, Error> {
    let is_text = mode.as_str() == text;
    Ok(is_text && is_symbol_of(mode.to_symbol(alloc), text, mode)?)
}

#[test]
fn calls_of_a_mode(rt: HostRuntime) -> Result<(), Fail> {
    assert!(rt; is_mode(DistributionMode::Move, "move", rt.alloc())?);
    assert!(rt; DistributionMode::try_from("Move").err() == Some("Move"));
    assert!(rt; is_given_back::<DistributionMode>("other", rt.alloc())?);
    Ok(())
}

fn is_capability(capability: TxnCapability, text: &str, alloc: Global) -> Result<bool, Error> {
    let is_text = capability.as_str() == text;
    Ok(is_text && is_symbol_of(capability.to_symbol(alloc), text, capability)?)
}

#[test]
fn calls_of_a_capability(rt: HostRuntime) -> Result<(), Fail> {
    let alloc = rt.alloc();
    let first = TxnCapability::LocalTransactions;
    let last = TxnCapability::MultiSsnsPerTxn;
    assert!(rt; is_less(Ok(first), Ok(last))?);
    let last = TxnCapability::MultiSsnsPerTxn;
    assert!(rt; is_capability(last, "amqp:multi-ssns-per-txn", alloc)?);
    assert!(rt; TxnCapability::try_from("move").err() == Some("move"));
    assert!(rt; is_given_back::<TxnCapability>("other", alloc)?);
    Ok(())
}

fn is_code(code: SaslCode, number: u8) -> bool {
    u8::from(&code) == number && u8::from(code) == number
}

fn have_codes_their_numbers() -> bool {
    is_code(SaslCode::Ok, 0)
        && is_code(SaslCode::Auth, 1)
        && is_code(SaslCode::Sys, 2)
        && is_code(SaslCode::SysPerm, 3)
        && is_code(SaslCode::SysTemp, 4)
}

#[test]
fn codes_and_handles(rt: HostRuntime) -> Result<(), Fail> {
    let alloc = rt.alloc();
    check_both_ways(SaslCode::Ok, "5000", alloc)?;
    check_both_ways(SaslCode::Auth, "5001", alloc)?;
    check_both_ways(SaslCode::Sys, "5002", alloc)?;
    check_both_ways(SaslCode::SysPerm, "5003", alloc)?;
    check_both_ways(SaslCode::SysTemp, "5004", alloc)?;
    assert!(rt; have_codes_their_numbers());
    check_both_ways(Handle(0), "43", alloc)?;
    check_both_ways(Handle::from(7), "5207", alloc)?;
    check_both_ways(Handle::default(), "70ffffffff", alloc)
}

#[test]
fn texts_of_no_policy(rt: HostRuntime) -> Result<(), Fail> {
    for text in [
        "",
        "Never",
        "never ",
        "neve",
        "session_end",
        "amqp:session-end",
    ] {
        assert!(rt; TerminusExpiryPolicy::try_from(text).err() == Some(text));
        assert!(rt; is_given_back::<TerminusExpiryPolicy>(text, rt.alloc())?);
    }
    Ok(())
}

fn refused<T: Deserialize>(input: &[u8], alloc: Global) -> Option<Error> {
    let read: Result<T, Error> = from_slice(input, alloc);
    read.err()
}

#[test]
fn codes_of_other_types_are_told(rt: HostRuntime) {
    assert_eq!(rt;
        refused::<Role>(&[0x50, 0x01], rt.alloc()),
        Some(Error::WrongType(0x50))
    );
    assert_eq!(rt;
        refused::<SenderSettleMode>(&[0x43], rt.alloc()),
        Some(Error::WrongType(0x43))
    );
    assert_eq!(rt;
        refused::<TerminusDurability>(&[0x50, 0x00], rt.alloc()),
        Some(Error::WrongType(0x50))
    );
    let string = &[0xa1, 0x05, 0x6e, 0x65, 0x76, 0x65, 0x72];
    assert_eq!(rt;
        refused::<TerminusExpiryPolicy>(string, rt.alloc()),
        Some(Error::WrongType(0xa1))
    );
}

// Whether the policy is `never`, or memory ran out.
fn is_never(policy: Result<TerminusExpiryPolicy, Error>) -> bool {
    match policy {
        Ok(policy) => policy == TerminusExpiryPolicy::Never,
        Err(error) => error == Error::Memory,
    }
}

// Whether the symbol is `never`, or memory ran out.
fn is_symbol_never(symbol: Result<Symbol, Error>) -> bool {
    match symbol {
        Ok(symbol) => symbol.as_str() == "never",
        Err(error) => error == Error::Memory,
    }
}

// Each growth is refused in turn by hand: `rt try --test --fail-alloc N`, for N from 1 on.
#[test]
fn want_of_memory_is_named(rt: HostRuntime) {
    let never = &[0xa3, 0x05, 0x6e, 0x65, 0x76, 0x65, 0x72];
    assert!(rt; is_never(from_slice(never, rt.alloc())));
    assert!(rt; is_symbol_never(TerminusExpiryPolicy::Never.to_symbol(rt.alloc())));
}
