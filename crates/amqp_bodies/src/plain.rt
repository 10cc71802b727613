//! Values that are read from the body of a message (Part 3, section 3.2.8).
ghost use Rattle.amqp_bodies.specs.ReadsAs.{reads_itself};
ghost use Rattle.amqp_bodies.specs.Bodies.{no_value};
ghost use Rattle.amqp_bodies.specs.BodySections.{plain_made};
ghost use Rattle.amqp_bodies.specs.NullBodies.{none_spelled};

use crate::traits::{FromBody, FromEmptyBody, PlainFromBody, ValueBody, ValueFromBody};
use amqp_codec::{DeserializeTerm, MapKey, Symbol};
use amqp_containers::Array;
use amqp_lazy::LazyValue;
use amqp_maps::OrderedMap;
use amqp_primitives::{Binary, Dec32, Dec64, Dec128, Timestamp, Uuid};
use amqp_sections::AmqpValue;
use amqp_values::Value;
use amqp_wire::Error;
use std::alloc::Global;
use std::collections::BTreeMap;

/// Returns `EmptyBody`.
impl<T: PlainFromBody> FromEmptyBody for T {
    ghost empties = { no_value };

    fn from_empty_body(_alloc: Global) -> Result<T, Error> {
        Err(Error::EmptyBody)
    }
}

impl<T: PlainFromBody> ValueBody for T {
    ghost empty_is_spelled = { none_spelled T.term };
}

impl<T: PlainFromBody> ValueFromBody for T {}

impl ValueFromBody for Value {}

impl ValueFromBody for LazyValue {}

/// Returns the value of the section.
impl<T: ValueFromBody> FromBody for T {
    type Body = AmqpValue<T>;

    ghost made = { plain_made T.term T.empties };

    fn from_body(body: AmqpValue<T>, _alloc: Global) -> Result<T, Error> {
        Ok(body.0)
    }

    ghost group_is = { reads_itself _ };

    ghost empty_is = { λ v h. h };

    ghost is_empty = { λ v h. h };
}

impl PlainFromBody for () {}

impl PlainFromBody for bool {}

impl PlainFromBody for u8 {}

impl PlainFromBody for u16 {}

impl PlainFromBody for u32 {}

impl PlainFromBody for u64 {}

impl PlainFromBody for i8 {}

impl PlainFromBody for i16 {}

impl PlainFromBody for i32 {}

impl PlainFromBody for i64 {}

impl PlainFromBody for char {}

impl PlainFromBody for Dec32 {}

impl PlainFromBody for Dec64 {}

impl PlainFromBody for Dec128 {}

impl PlainFromBody for Timestamp {}

impl PlainFromBody for Uuid {}

impl PlainFromBody for Binary {}

impl PlainFromBody for String {}

impl PlainFromBody for Symbol {}

impl<T: DeserializeTerm> PlainFromBody for Vec<T> {}

impl<T: DeserializeTerm> PlainFromBody for Array<T> {}

impl<K: MapKey, V: DeserializeTerm> PlainFromBody for OrderedMap<K, V> {}

impl<K: MapKey + Ord, V: DeserializeTerm> PlainFromBody for BTreeMap<K, V> {}
