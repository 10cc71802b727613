//! Why a transfer isn't joined to a delivery.
ghost use Rattle.std.specs.Prelude.{◌≡◌};
ghost use Rattle.amqp_frames.specs.Deliveries.{condition_of};

use std::alloc::AllocError;

/// Why a transfer isn't joined to a delivery (Part 2, sections 2.6.14 and 2.7.5). If a transfer breaks several rules, the error reports the
/// first of them in the order of the variants.
#[derive(Clone, Copy, Debug, PartialEq, Eq, thiserror::Error)]
pub enum DeliveryError {
    /// The first transfer of a delivery has no delivery-id.
    #[error("the first transfer of a delivery has no delivery-id")]
    NoDeliveryId,
    /// The first transfer of a delivery has no delivery-tag.
    #[error("the first transfer of a delivery has no delivery-tag")]
    NoDeliveryTag,
    /// A later transfer has another delivery-id than the first one.
    #[error("a transfer has another delivery-id than its delivery")]
    OtherDeliveryId,
    /// A later transfer has another delivery-tag than the first one.
    #[error("a transfer has another delivery-tag than its delivery")]
    OtherDeliveryTag,
    /// A later transfer has another message-format than the first one.
    #[error("a transfer has another message-format than its delivery")]
    OtherMessageFormat,
    /// The message would have more bytes than the caller's limit.
    #[error("a message is longer than the limit")]
    AboveLimit,
    /// An allocation fails.
    #[error("out of memory")]
    Memory,
}

impl From<AllocError> for DeliveryError {
    ghost use Rattle.amqp_frames.specs.declared.delivery_error.DeliveryError.TheVariants as fault;

    ghost from_gives = { λ error delivery_error. delivery_error ≡ fault.Memory };

    fn from(_error: AllocError) -> DeliveryError {
        DeliveryError::Memory
    }
}

impl DeliveryError {
    /// Returns the error condition that the peer is told: `amqp:link:message-size-exceeded` for a message above the limit (Part 2,
    /// section 2.8.18), `amqp:internal-error` if an allocation fails, and otherwise `amqp:invalid-field` (Part 2, section 2.8.15).
    pub fn condition(&self) -> &'static str
        ensures { result.now ≡ condition_of self.now }
    {
        match self {
            DeliveryError::AboveLimit => "amqp:link:message-size-exceeded",
            DeliveryError::Memory => "amqp:internal-error",
            DeliveryError::NoDeliveryId
            | DeliveryError::NoDeliveryTag
            | DeliveryError::OtherDeliveryId
            | DeliveryError::OtherDeliveryTag
            | DeliveryError::OtherMessageFormat => "amqp:invalid-field",
        }
    }
}
