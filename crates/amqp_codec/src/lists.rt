//! Lists of values of one type (Part 1, section 1.6.22), and what they have in common with arrays: items, one after another.
ghost use Rattle.std.specs.Prelude.{All, refl, true};
ghost use Rattle.std.specs.List.{flat_map};
ghost use Rattle.amqp_model.specs.Term.{list};
ghost use Rattle.amqp_wire.specs.Sources.{Tells};
ghost use Rattle.amqp_decoder.specs.Places.{AnswersAt};
ghost use Rattle.amqp_decoder.specs.Steps.{Passes};
ghost use Rattle.amqp_codec.specs.Written.{WritesTerms};
ghost use Rattle.amqp_codec.specs.Agreement.{via_writing, via_agreement};
ghost use Rattle.amqp_codec.specs.ItemsReading.{ReadsRow, RowFault};
ghost use Rattle.amqp_codec.specs.ItemsWriting.{items_writing};
ghost use Rattle.amqp_codec.specs.VecType.{vec_of, vec_agreement};

use crate::{DeserializeTerm, Serialize, SerializeTerm};
use amqp_decoder::Decoder;
use amqp_encoder::{Encoder, Pass};
use amqp_wire::{ByteSource, Error};
use std::alloc::Global;

/// Writes the values one after another. It returns the errors of the values, or the error of an encoder that has refused before.
pub fn write_each<T: Serialize, P: Pass>(
    values: &[T],
    encoder: &mut Encoder<P>,
) -> Result<(), Error>
    ensures { WritesTerms (flat_map T.writing.canons values.now) encoder.old result encoder.new }
{
    encoder.check()?;
    for value in values {
        value.serialize(encoder)?;
    }
    Ok(())
}

/// Promises that the values are of their type. It doesn't allocate.
pub fn each_in_type<T: Serialize>(values: &[T])
    ensures { All T.writing.is_value values.now }
{
    for value in values {
        value.in_type();
    }
}

/// Reads so many values one after another. Memory is reserved for as many as `Decoder::reservable_items` says, and then allocated as values
/// come; if that fails, the error is `Memory`. Any other error is that of the first value that can't be read.
pub fn read_each<T: DeserializeTerm, R: ByteSource>(
    count: u32,
    decoder: &mut Decoder<R>,
    alloc: Global,
) -> Result<Vec<T>, Error>
    ensures read { Tells R.remaining → AnswersAt true (λ st v b. ReadsRow count T.term.means st v.items b)
        (RowFault count T.term.means T.term.faults.fault) decoder.old result decoder.new }
    ensures tries { Passes true decoder.old result decoder.new }
{
    let Ok(mut values) = Vec::with_capacity(alloc, decoder.reservable_items(count)) else {
        return Err(decoder.refuse(Error::Memory));
    };
    for _ in 0..count {
        let value = T::read_value(decoder, alloc)?;
        if values.push(value).is_err() {
            return Err(decoder.refuse(Error::Memory));
        }
    }
    Ok(values)
}

impl<T: SerializeTerm> Serialize for Vec<T> {
    ghost writing = { via_writing (λ v. v.items) (items_writing list tt T.writing) };

    fn serialize<P: Pass>(&self, encoder: &mut Encoder<P>) -> Result<(), Error> {
        encoder.begin_list()?;
        write_each(self.as_slice(), encoder)?;
        encoder.end_list()
    }

    fn in_type(&self) {
        each_in_type(self.as_slice())
    }
}

impl<T: SerializeTerm> SerializeTerm for Vec<T> {
    fn is_null(&self) -> bool {
        false
    }

    ghost is_term = { λ v. refl };
}

impl<T: DeserializeTerm> DeserializeTerm for Vec<T> {
    ghost term = { vec_of T.term };

    fn read_value<R: ByteSource>(decoder: &mut Decoder<R>, alloc: Global) -> Result<Vec<T>, Error> {
        let count = decoder.begin_list()?;
        let values = read_each(count, decoder, alloc)?;
        decoder.end_list()?;
        Ok(values)
    }

    ghost agreement = { vec_agreement T.agreement };
}
