//! The types that messages are read as (Part 3, section 3.2).
use fe2o3_amqp_types::codec::Value;
use fe2o3_amqp_types::messaging::message::Strict;
use fe2o3_amqp_types::messaging::{Body, Message};

/// A message with sections in any order, and a body of any kind.
pub(crate) type AnyMessage = Message<Body<Value>>;

/// The same with sections in the standard's order.
pub(crate) type StrictMessage = Strict<Body<Value>>;
