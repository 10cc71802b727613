//! The unsettled deliveries in an attach (Part 2, section 2.7.3).
use amqp_delivery::DeliveryState;
use amqp_maps::OrderedMap;
use amqp_restricted_types::DeliveryTag;

/// The states of unsettled deliveries by their tags: `None` for a delivery whose state isn't known.
pub type Unsettled = OrderedMap<DeliveryTag, Option<DeliveryState>>;
