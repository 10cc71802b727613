//! Maps from symbols to values of any kind (Part 2, section 2.8.13), which are fields of many types.
use amqp_codec::Symbol;
use amqp_maps::OrderedMap;
use amqp_values::Value;

/// A map from symbols to values of any kind, in the order in which they were inserted (Part 2, section 2.8.13).
pub type Fields = OrderedMap<Symbol, Value>;
