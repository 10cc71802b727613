//! Sums of composites, each read as the member whose descriptor comes next (Part 1, section 1.4). A sum is one list of its members,
//! `Choices` in `specs/Choices.antt`. What is read at a place of it is made by that member's constructor.
ghost use Rattle.std.specs.Prelude.{◌≡◌, ◌<◌, length, map};
ghost use Rattle.amqp_model.specs.Items.{is_null};
ghost use Rattle.amqp_wire.specs.Sources.{Tells};
ghost use Rattle.amqp_lookahead.specs.Members.{as_name};
ghost use Rattle.amqp_decoder.specs.Places.{AnswersAt};
ghost use Rattle.amqp_decoder.specs.Primitives.{ReadsValue};
ghost use Rattle.amqp_decoder.specs.Steps.{Tries};
ghost use Rattle.amqp_codec.specs.Composite.{table_with};
ghost use Rattle.amqp_codec.specs.Fields.{take_memory};
ghost use Rattle.amqp_codec.specs.FieldReading.{FieldsFault};
ghost use Rattle.amqp_codec.specs.Written.{WritesTerms, canon_of};
ghost use Rattle.amqp_sums.specs.Choices.{ChoiceRead, sum_of, sum_writing};

use amqp_codec::SerializeTerm;
use amqp_codec::kernel::{Composite, FieldList, fill_fields};
use amqp_decoder::Decoder;
use amqp_encoder::{Encoder, Pass};
use amqp_wire::{ByteSource, Error};
use std::alloc::Global;

/// A sum of composites.
pub trait Sum: Sized + Drop {
    ghost use Rattle.amqp_sums.specs.Choices.{SumOf, names_of, takes_at, reads_at, faults_at};

    ghost sum: { SumOf Self };

    /// Returns the codes and names of the members, in order.
    fn descriptors() -> &'static [(u64, &'static str)]
        ensures { map as_name result.now ≡ names_of sum.choices };

    /// Reads the fields of the member at a place, by `read_as`.
    fn read_member<R: ByteSource>(
        place: usize,
        decoder: &mut Decoder<R>,
        alloc: Global,
    ) -> Result<Self, Error>
        ensures read { place < length (names_of sum.choices) → Tells R.remaining →
            AnswersAt (takes_at sum.choices place) (reads_at sum.choices place) (faults_at sum.choices place).fault
            decoder.old result decoder.new }
        ensures tries { Tries (takes_at sum.choices place) decoder.old result decoder.new };
}

/// Reads a sum of composites.
pub fn read_sum<S: Sum, R: ByteSource>(decoder: &mut Decoder<R>, alloc: Global) -> Result<S, Error>
    ensures read { Tells R.remaining →
        AnswersAt (sum_of S.sum).takes_memory (ReadsValue (sum_of S.sum).means) (sum_of S.sum).faults.fault
        decoder.old result decoder.new }
    ensures tries { Tries (sum_of S.sum).takes_memory decoder.old result decoder.new }
{
    let place = decoder.begin_one_of(S::descriptors())?;
    match S::read_member(place, decoder, alloc) {
        Ok(value) => match decoder.end_described() {
            Ok(()) => Ok(value),
            Err(error) => Err(error),
        },
        Err(error) => Err(error),
    }
}

/// Reads the fields of a member of a sum, and converts it to the sum.
pub fn read_as<C: Composite, S: From<C> + Drop, R: ByteSource>(
    decoder: &mut Decoder<R>,
    alloc: Global,
) -> Result<S, Error>
    ensures read { Tells R.remaining →
        AnswersAt (take_memory C.list.fields) (ChoiceRead (table_with C.names C.list) S.from_gives) (FieldsFault C.list.fields)
        decoder.old result decoder.new }
    ensures tries { Tries (take_memory C.list.fields) decoder.old result decoder.new }
{
    let mut member = <C as FieldList>::blank(alloc);
    match fill_fields(&mut member, decoder, alloc) {
        Ok(()) => Ok(S::from(member)),
        Err(error) => Err(error),
    }
}

/// Writes the member that a sum of composites holds, which is how the sum is written. It returns the encoder's errors for the member.
pub fn write_as<S: Sum, C: SerializeTerm, P: Pass>(
    _sum: &S,
    member: &C,
    encoder: &mut Encoder<P>,
) -> Result<(), Error>
    ensures written { (held : S) → _sum.now ≡ held → canon_of (sum_writing S.sum) held ≡ canon_of C.writing member.now
        → WritesTerms ((sum_writing S.sum).canons _sum.now) encoder.old result encoder.new }
{
    member.serialize(encoder)
}

/// Returns whether a sum of composites is null, which it never is.
pub fn is_null_sum<S: Sum>(_value: &S) -> bool
    ensures { result ≡ is_null (canon_of (sum_writing S.sum) _value.now) }
{
    false
}
