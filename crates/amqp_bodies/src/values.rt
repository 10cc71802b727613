//! Values as the body of a message (Part 3, section 3.2.8).
ghost use Rattle.amqp_bodies.specs.NullBodies.{nulls_spelled};
ghost use Rattle.amqp_bodies.specs.PlainBodies.{null_value, lazy_null, none_value, null_is_null, none_is_null};

use crate::traits::{FromEmptyBody, ValueBody};
use amqp_codec::DeserializeTerm;
use amqp_lazy::LazyValue;
use amqp_values::Value;
use amqp_wire::Error;
use std::alloc::Global;

/// Returns `Null`.
impl FromEmptyBody for Value {
    ghost empties = { null_value };

    fn from_empty_body(_alloc: Global) -> Result<Value, Error> {
        Ok(Value::Null)
    }
}

impl ValueBody for Value {
    ghost empty_is_spelled = { nulls_spelled _ _ null_is_null };
}

/// Returns the bytes of a null.
impl FromEmptyBody for LazyValue {
    ghost empties = { lazy_null };

    fn from_empty_body(alloc: Global) -> Result<LazyValue, Error> {
        LazyValue::null(alloc)
    }
}

impl ValueBody for LazyValue {
    ghost empty_is_spelled = { nulls_spelled _ _ (λ v h. h) };
}

/// Returns `None`.
impl<T> FromEmptyBody for Option<T> {
    ghost empties = { none_value };

    fn from_empty_body(_alloc: Global) -> Result<Option<T>, Error> {
        Ok(None)
    }
}

impl<T: DeserializeTerm> ValueBody for Option<T> {
    ghost empty_is_spelled = { nulls_spelled _ _ (none_is_null T.term) };
}
