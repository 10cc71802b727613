//! Restricted types (Part 2, section 2.8; Part 3, section 3.5; Part 4, section 4.5; Part 5, section 5.3.3): each value has a number or a
//! text. Also the names and constants of Part 2.
#![tactic(auto)]

mod channel_max;
mod connection_state;
mod constants;
mod distribution_mode;
mod handle;
pub mod laws;
mod max_frame_size;
mod names;
mod receiver_settle_mode;
mod role;
mod sasl_code;
mod sender_settle_mode;
mod session_state;
mod terminus_durability;
mod terminus_expiry_policy;
mod txn_capability;

pub use channel_max::ChannelMax;
pub use connection_state::ConnectionState;
pub use constants::{MAJOR, MIN_MAX_FRAME_SIZE, MINOR, PORT, REVISION, SECURE_PORT};
pub use distribution_mode::DistributionMode;
pub use handle::Handle;
pub use max_frame_size::MaxFrameSize;
pub use names::{
    DeliveryNumber, DeliveryTag, IetfLanguageTag, MessageFormat, Milliseconds, Seconds, SequenceNo,
    TransferNumber,
};
pub use receiver_settle_mode::ReceiverSettleMode;
pub use role::Role;
pub use sasl_code::SaslCode;
pub use sender_settle_mode::SenderSettleMode;
pub use session_state::SessionState;
pub use terminus_durability::TerminusDurability;
pub use terminus_expiry_policy::TerminusExpiryPolicy;
pub use txn_capability::TxnCapability;
