//! How a value is read as one of the types that it may have.
ghost use Rattle.amqp_wire.specs.Sources.{Tells};
ghost use Rattle.amqp_decoder.specs.Places.{AnswersAt};
ghost use Rattle.amqp_decoder.specs.Steps.{Tries};
ghost use Rattle.amqp_kinds.specs.KindReading.{ReadsMember};

use amqp_codec::DeserializeTerm;
use amqp_decoder::Decoder;
use amqp_wire::{ByteSource, Error};
use std::alloc::Global;

/// Reads a value of type `T`, and converts it to `V`. It returns the errors of `T`.
pub fn read_as<T: DeserializeTerm, V: From<T> + Drop, R: ByteSource>(
    decoder: &mut Decoder<R>,
    alloc: Global,
) -> Result<V, Error>
    ensures read { Tells R.remaining →
        AnswersAt T.term.takes_memory (ReadsMember T.term.means V.from_gives) T.term.faults.fault decoder.old result decoder.new }
    ensures tries { Tries T.term.takes_memory decoder.old result decoder.new }
{
    let value = T::read_value(decoder, alloc)?;
    Ok(V::from(value))
}
