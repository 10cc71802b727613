//! Fields of several values (Part 1, section 1.4): what is read there, when the field is null, and what is written. A composite holds the
//! values in an array, or in an option of one if there may be none.
ghost use Rattle.std.specs.Prelude.{◌≡◌, [], ◌∷◌, true};
ghost use Rattle.amqp_model.specs.Items.{is_null};
ghost use Rattle.amqp_wire.specs.Sources.{Tells};
ghost use Rattle.amqp_decoder.specs.Places.{AnswersAt};
ghost use Rattle.amqp_decoder.specs.Primitives.{ReadsValue};
ghost use Rattle.amqp_decoder.specs.Steps.{Tries};
ghost use Rattle.amqp_codec.specs.FieldReading.{Fills};
ghost use Rattle.amqp_codec.specs.Written.{WritesTerms};
ghost use Rattle.amqp_containers.specs.Several.{MeansMultiple, MeansAtLeastOne, multiple_faults, mandatory_faults};
ghost use Rattle.amqp_containers.specs.Several.{multiple_canon, mandatory_multiple_canon};

use crate::Array;
use amqp_codec::{DeserializeTerm, Serialize};
use amqp_decoder::Decoder;
use amqp_encoder::{Encoder, Pass};
use amqp_wire::{ByteSource, Error, format_code};
use std::alloc::Global;

// The items of an array, of which there may be none, or one value by itself.
fn read_several<T: DeserializeTerm, R: ByteSource>(
    decoder: &mut Decoder<R>,
    alloc: Global,
) -> Result<Option<Array<T>>, Error>
    ensures read { Tells R.remaining → AnswersAt true (ReadsValue (MeansMultiple T.term)) (multiple_faults T.term).fault
        decoder.old result decoder.new }
    ensures tries { Tries true decoder.old result decoder.new }
{
    let mut alone = Array(Vec::new(alloc));
    match decoder.peek_code()? {
        format_code::ARRAY_8 | format_code::ARRAY_32 => {
            let items: Array<T> = Array::read_value(decoder, alloc)?;
            if items.is_empty() {
                return Ok(None);
            }
            Ok(Some(items))
        }
        _ => {
            let item = T::read_value(decoder, alloc)?;
            if alone.push(item).is_err() {
                return Err(decoder.refuse(Error::Memory));
            }
            Ok(Some(alone))
        }
    }
}

/// Reads a field that may have no values into its place. The values are the items of an array, or one value by itself; if there are no
/// items, the field is `None`. It returns the errors of an array of such values, or of one of them.
pub fn read_multiple<T: DeserializeTerm, R: ByteSource>(
    place: &mut Option<Array<T>>,
    decoder: &mut Decoder<R>,
    alloc: Global,
) -> Result<(), Error>
    ensures read { Tells R.remaining → Fills true (MeansMultiple T.term) (multiple_faults T.term).fault
        decoder.old place.new result decoder.new }
    ensures tries { Tries true decoder.old result decoder.new }
{
    match read_several(decoder, alloc) {
        Ok(found) => {
            *place = found;
            Ok(())
        }
        Err(error) => Err(error),
    }
}

/// Reads a field that has at least one value into its place. It returns the errors of `read_multiple`, or `EmptyMultiple` if an array
/// without items comes there.
pub fn read_mandatory_multiple<T: DeserializeTerm, R: ByteSource>(
    place: &mut Array<T>,
    decoder: &mut Decoder<R>,
    alloc: Global,
) -> Result<(), Error>
    ensures read { Tells R.remaining → Fills true (MeansAtLeastOne T.term) (mandatory_faults T.term).fault
        decoder.old place.new result decoder.new }
    ensures tries { Tries true decoder.old result decoder.new }
{
    let start = decoder.place();
    match read_several(decoder, alloc)? {
        Some(items) => {
            *place = items;
            Ok(())
        }
        None => Err(decoder.refuse_at(start, Error::EmptyMultiple)),
    }
}

/// Returns whether a field that may have no values is written as null: it has none.
pub fn is_null_multiple<T: DeserializeTerm>(field: &Option<Array<T>>) -> bool
    ensures { result ≡ is_null (multiple_canon T.term.canon field.now) }
{
    match field {
        Some(items) => items.is_empty(),
        None => true,
    }
}

/// Writes a field that may have no values: an array of them, also for one, and null for none. It returns the errors of the array.
pub fn write_multiple<T: DeserializeTerm, P: Pass>(
    field: &Option<Array<T>>,
    encoder: &mut Encoder<P>,
) -> Result<(), Error>
    ensures { WritesTerms (multiple_canon T.term.canon field.now ∷ []) encoder.old result encoder.new }
{
    match field {
        Some(items) if !items.is_empty() => items.serialize(encoder),
        _ => encoder.write_null(),
    }
}

/// Returns whether a field that has at least one value is written as null, which it never is.
pub fn is_null_mandatory_multiple<T: DeserializeTerm>(_field: &Array<T>) -> bool
    ensures { result ≡ is_null (mandatory_multiple_canon T.term.canon _field.now) }
{
    false
}

/// Writes a field that has at least one value, as an array of the values, also for one. It returns the errors of the array, or
/// `EmptyMultiple` if the field has no value.
pub fn write_mandatory_multiple<T: DeserializeTerm, P: Pass>(
    field: &Array<T>,
    encoder: &mut Encoder<P>,
) -> Result<(), Error>
    ensures { WritesTerms (mandatory_multiple_canon T.term.canon field.now ∷ []) encoder.old result encoder.new }
{
    if field.is_empty() {
        return encoder.refuse(Error::EmptyMultiple);
    }
    field.serialize(encoder)
}
