//! The values that the body of a message can be made of (Part 3, sections 3.2.6 to 3.2.8).
ghost use Rattle.std.specs.Prelude.{◌≡◌};

use crate::body::Body;
use crate::traits::{AsBodyRef, IntoBody, PlainIntoBody};
use amqp_batches::{BatchItem, TransparentVec};
use amqp_codec::{SerializeTerm, Symbol};
use amqp_containers::Array;
use amqp_lazy::LazyValue;
use amqp_maps::OrderedMap;
use amqp_primitives::{Binary, Dec32, Dec64, Dec128, SymbolRef, Timestamp, Uuid};
use amqp_sections::{AmqpSequence, AmqpValue, Data};
use amqp_values::Value;
use std::borrow::CowStr;
use std::collections::BTreeMap;
use std::hash::Hash;

/// The body is a section with the value.
impl<T: PlainIntoBody> IntoBody for T {
    type Body = AmqpValue<T>;

    ghost body = { λ v. record { 0 = v } };

    fn into_body(self) -> AmqpValue<T> {
        AmqpValue(self)
    }
}

impl<'a, T: 'a + SerializeTerm + IntoBody<Body = AmqpValue<T>>> AsBodyRef<'a, T> for AmqpValue<T> {
    type BodyRef = AmqpValue<&'a T>;

    ghost borrows = { λ body value. body.0.now ≡ value };

    fn as_body_ref(value: &'a T) -> AmqpValue<&'a T> {
        AmqpValue(value)
    }
}

/// The body is the section itself.
impl<T: SerializeTerm> IntoBody for AmqpValue<T> {
    type Body = AmqpValue<T>;

    ghost body = { λ v. v };

    fn into_body(self) -> AmqpValue<T> {
        self
    }
}

/// The body is the section itself.
impl<T: SerializeTerm> IntoBody for AmqpSequence<T> {
    type Body = AmqpSequence<T>;

    ghost body = { λ v. v };

    fn into_body(self) -> AmqpSequence<T> {
        self
    }
}

/// The body is the section itself.
impl IntoBody for Data {
    type Body = Data;

    ghost body = { λ v. v };

    fn into_body(self) -> Data {
        self
    }
}

/// The body is the batch itself.
impl<T: BatchItem> IntoBody for TransparentVec<T> {
    type Body = TransparentVec<T>;

    ghost body = { λ v. v };

    fn into_body(self) -> TransparentVec<T> {
        self
    }
}

/// The body is the value itself.
impl<T: SerializeTerm> IntoBody for Body<T> {
    type Body = Body<T>;

    ghost body = { λ v. v };

    fn into_body(self) -> Body<T> {
        self
    }
}

impl PlainIntoBody for () {}

impl PlainIntoBody for bool {}

impl PlainIntoBody for u8 {}

impl PlainIntoBody for u16 {}

impl PlainIntoBody for u32 {}

impl PlainIntoBody for u64 {}

impl PlainIntoBody for i8 {}

impl PlainIntoBody for i16 {}

impl PlainIntoBody for i32 {}

impl PlainIntoBody for i64 {}

impl PlainIntoBody for char {}

impl PlainIntoBody for Dec32 {}

impl PlainIntoBody for Dec64 {}

impl PlainIntoBody for Dec128 {}

impl PlainIntoBody for Timestamp {}

impl PlainIntoBody for Uuid {}

impl PlainIntoBody for Binary {}

impl PlainIntoBody for String {}

impl PlainIntoBody for Symbol {}

impl PlainIntoBody for Value {}

impl PlainIntoBody for LazyValue {}

impl PlainIntoBody for &str {}

impl PlainIntoBody for CowStr<'_> {}

impl PlainIntoBody for SymbolRef<'_> {}

impl<T: PlainIntoBody> PlainIntoBody for &T {}

impl<T: SerializeTerm> PlainIntoBody for Vec<T> {}

impl<T: SerializeTerm> PlainIntoBody for Array<T> {}

impl<K: SerializeTerm + Eq + Hash, V: SerializeTerm> PlainIntoBody for OrderedMap<K, V> {}

impl<K: SerializeTerm + Ord, V: SerializeTerm> PlainIntoBody for BTreeMap<K, V> {}
