//! Optional bodies of messages (Part 3, section 3.2).
ghost use Rattle.amqp_bodies.specs.SpelledBodies.{IsThere};
ghost use Rattle.amqp_bodies.specs.SomeReading.{some_reading};
ghost use Rattle.amqp_bodies.specs.SpelledReading.{there_is_read};
ghost use Rattle.amqp_bodies.specs.NamedFaults.{there_named};

use crate::traits::{BodySection, DeserializableBody, FromBody, TransposeOption};
use amqp_decoder::Decoder;
use amqp_wire::{ByteSource, Error};
use std::alloc::Global;

impl<B: BodySection> BodySection for Option<B> {}

/// If a section of a body comes next, the body is present.
impl<B: DeserializableBody> DeserializableBody for Option<B>
where
    Option<B>: Drop,
{
    ghost group = { some_reading B.group };

    ghost spells = { IsThere B.spells };

    ghost faults = { B.faults };

    fn read_group<R: ByteSource>(
        code: u8,
        decoder: &mut Decoder<R>,
        alloc: Global,
    ) -> Result<Option<B>, Error> {
        Ok(Some(B::read_group(code, decoder, alloc)?))
    }

    ghost is_read = { there_is_read B.is_read };

    ghost is_named = { there_named B.is_named };
}

/// It is `None` if there is no body, or nothing in it.
impl<T> FromBody for Option<T>
where
    T: FromBody,
    T::Body: TransposeOption<T>,
{
    type Body = <T::Body as TransposeOption<T>>::From;

    ghost made = { T.Body.transposed };

    fn from_body(
        body: <T::Body as TransposeOption<T>>::From,
        alloc: Global,
    ) -> Result<Option<T>, Error> {
        <T::Body as TransposeOption<T>>::transpose(body, alloc)
    }

    ghost group_is = { T.Body.from_is };

    ghost empty_is = { T.Body.none_is };

    ghost is_empty = { T.Body.is_none };
}
