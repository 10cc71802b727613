//! The wrappers with which a message is written and read.
ghost use Rattle.amqp_codec.specs.Agreement.{via_writing};
ghost use Rattle.amqp_batches.specs.WalkReading.{reading_via};
ghost use Rattle.amqp_messages.specs.Wrappers.{written_in, read_in};

use amqp_codec::{Deserialize, Encoder, Pass, Serialize};
use amqp_decoder::Decoder;
use amqp_wire::{ByteSource, Error};
use std::alloc::Global;

/// A wrapper that is written as what it holds: a `Message`, or a reference to one.
#[derive(Debug, Drop)]
pub struct Serializable<T>(pub T);

impl<T: Serialize> Serialize for Serializable<T> {
    ghost writing = { via_writing written_in T.writing };

    fn serialize<P: Pass>(&self, encoder: &mut Encoder<P>) -> Result<(), Error> {
        self.0.serialize(encoder)
    }

    fn in_type(&self) {
        self.0.in_type();
    }
}

/// A wrapper that is read as what it holds: a `Message`.
#[derive(Debug, Drop)]
pub struct Deserializable<T>(pub T);

impl<T: Deserialize> Deserialize for Deserializable<T> {
    ghost reading = { reading_via T.reading read_in };

    fn is_one_term() -> bool {
        T::is_one_term()
    }

    fn deserialize<R: ByteSource>(
        decoder: &mut Decoder<R>,
        alloc: Global,
    ) -> Result<Deserializable<T>, Error> {
        Ok(Deserializable(T::deserialize(decoder, alloc)?))
    }
}
