//! What holds for the types of this crate in addition to the laws of every type. The functions do nothing; their contracts are proved.
ghost use Rattle.std.specs.Prelude.{◌≡◌, true, false};
ghost use Rattle.std.specs.Ordering.{nat_cmp};
ghost use Rattle.amqp_restricted_types.specs.Orders.{role_place, txn_capability_place};

use crate::{
    ChannelMax, DistributionMode, Handle, MAJOR, MIN_MAX_FRAME_SIZE, MINOR, MaxFrameSize, PORT,
    REVISION, ReceiverSettleMode, Role, SECURE_PORT, SaslCode, SenderSettleMode,
    TerminusDurability, TerminusExpiryPolicy, TxnCapability,
};
use amqp_codec::{Canonical, Deserialize};

/// Numbers are read without allocating, so `from_slice` never returns `Memory` for them.
pub fn reading_takes_no_memory()
    ensures role { ⟦<Role as Deserialize>⟧.reading.takes_memory ≡ false }
    ensures sender_settle_mode { ⟦<SenderSettleMode as Deserialize>⟧.reading.takes_memory ≡ false }
    ensures receiver_settle_mode { ⟦<ReceiverSettleMode as Deserialize>⟧.reading.takes_memory ≡ false }
    ensures handle { ⟦<Handle as Deserialize>⟧.reading.takes_memory ≡ false }
    ensures max_frame_size { ⟦<MaxFrameSize as Deserialize>⟧.reading.takes_memory ≡ false }
    ensures channel_max { ⟦<ChannelMax as Deserialize>⟧.reading.takes_memory ≡ false }
    ensures sasl_code { ⟦<SaslCode as Deserialize>⟧.reading.takes_memory ≡ false }
    ensures terminus_durability { ⟦<TerminusDurability as Deserialize>⟧.reading.takes_memory ≡ false }
{}

/// The defaults of the standard.
pub fn defaults()
    ensures sender_settle_mode { (v : _) → ⟦<SenderSettleMode as Default>⟧.is_default v → v ≡ SenderSettleMode.Mixed }
    ensures receiver_settle_mode { (v : _) → ⟦<ReceiverSettleMode as Default>⟧.is_default v → v ≡ ReceiverSettleMode.First }
    ensures durability { (v : _) → ⟦<TerminusDurability as Default>⟧.is_default v → v ≡ TerminusDurability.None }
    ensures expiry_policy { (v : _) → ⟦<TerminusExpiryPolicy as Default>⟧.is_default v → v ≡ TerminusExpiryPolicy.SessionEnd }
    ensures handle { (v : _) → ⟦<Handle as Default>⟧.is_default v → v.0 ≡ 4294967295 }
    ensures max_frame_size { (v : _) → ⟦<MaxFrameSize as Default>⟧.is_default v → v.0 ≡ 4294967295 }
    ensures channel_max { (v : _) → ⟦<ChannelMax as Default>⟧.is_default v → v.0 ≡ 65535 }
{}

/// For these types, no encoding of a value is shorter than its canonical text.
pub fn texts_are_least()
    ensures role { ⟦<Role as Canonical>⟧.is_least ≡ true }
    ensures sender_settle_mode { ⟦<SenderSettleMode as Canonical>⟧.is_least ≡ true }
    ensures receiver_settle_mode { ⟦<ReceiverSettleMode as Canonical>⟧.is_least ≡ true }
    ensures handle { ⟦<Handle as Canonical>⟧.is_least ≡ true }
    ensures max_frame_size { ⟦<MaxFrameSize as Canonical>⟧.is_least ≡ true }
    ensures channel_max { ⟦<ChannelMax as Canonical>⟧.is_least ≡ true }
    ensures sasl_code { ⟦<SaslCode as Canonical>⟧.is_least ≡ true }
    ensures terminus_durability { ⟦<TerminusDurability as Canonical>⟧.is_least ≡ true }
    ensures terminus_expiry_policy { ⟦<TerminusExpiryPolicy as Canonical>⟧.is_least ≡ true }
    ensures distribution_mode { ⟦<DistributionMode as Canonical>⟧.is_least ≡ true }
    ensures txn_capability { ⟦<TxnCapability as Canonical>⟧.is_least ≡ true }
{}

/// Roles and the capabilities of transactions are ordered as the standard lists them, and handles as their numbers.
pub fn orders()
    ensures role { (a b : _) → ⟦<Role as Ord>⟧.cmp a b ≡ nat_cmp (role_place a) (role_place b) }
    ensures txn_capability { (a b : _) → ⟦<TxnCapability as Ord>⟧.cmp a b ≡ nat_cmp (txn_capability_place a) (txn_capability_place b) }
    ensures handle { (a b : _) → ⟦<Handle as Ord>⟧.cmp a b ≡ nat_cmp a.0 b.0 }
{}

/// The constants of the standard.
pub fn constants()
    ensures port { PORT ≡ 5672 }
    ensures secure_port { SECURE_PORT ≡ 5671 }
    ensures major { MAJOR ≡ 1 }
    ensures minor { MINOR ≡ 0 }
    ensures revision { REVISION ≡ 0 }
    ensures min_max_frame_size { MIN_MAX_FRAME_SIZE ≡ 512 }
{}
