//! Composites, which are described lists of fields (Part 1, section 1.4).
ghost use Rattle.std.specs.Prelude.{◌≡◌, [], ◌∷◌};
ghost use Rattle.amqp_model.specs.Term.{described};
ghost use Rattle.amqp_model.specs.Term.{code as code_of};
ghost use Rattle.amqp_model.specs.Composite.{MeansComposite, canonical_list};
ghost use Rattle.amqp_codec.specs.Fields.{slots, take_memory};
ghost use Rattle.amqp_codec.specs.Composite.{table_of, table_with, composite_members};
ghost use Rattle.amqp_codec.specs.Written.{WritesTerms};
ghost use Rattle.amqp_wire.specs.Sources.{Tells};
ghost use Rattle.amqp_decoder.specs.Places.{AnswersAt};
ghost use Rattle.amqp_decoder.specs.Primitives.{ReadsValue};
ghost use Rattle.amqp_decoder.specs.Steps.{Tries};
ghost use Rattle.amqp_codec.specs.Members.{MemberFault};

use crate::fields::{FieldList, fill_fields, write_fields};
use crate::{DeserializeTerm, SerializeTerm};
use amqp_decoder::Decoder;
use amqp_encoder::{Encoder, Pass};
use amqp_wire::{ByteSource, Error};
use std::alloc::Global;

/// A composite type: a list of fields after a descriptor, which is read and written as its table says, as one term.
pub trait Composite: FieldList + SerializeTerm {
    ghost use Rattle.amqp_codec.specs.Composite.{Names, composite, table_with};
    ghost use Rattle.amqp_codec.specs.Agreement.{Agreement};

    // What describes it. With its list of fields, this is its table.
    ghost names: { Names };

    /// Returns the code and the name of its descriptor.
    fn descriptor() -> (u64, &'static str)
        ensures code { result.0 ≡ names.code }
        ensures name { result.1.now ≡ names.name };

    // It is written as the table says.
    ghost agrees: { Agreement (composite (table_with names Self.FieldList.list)) Self.writing };
}

impl<C: Composite> DeserializeTerm for C {
    ghost use Rattle.amqp_codec.specs.Composite.{composite, table_with};

    ghost term = { composite (table_with C.names C.list) };

    #[inline(always)]
    fn read_value<R: ByteSource>(decoder: &mut Decoder<R>, alloc: Global) -> Result<C, Error> {
        read_composite(decoder, alloc)
    }

    ghost agreement = { C.agrees };
}

/// Reads a composite: a described list under the code or the name of its table. For another descriptor it returns `WrongDescriptor`, and
/// for the list the errors of `read_list`.
#[inline(always)]
pub fn read_composite<C: Composite, R: ByteSource>(
    decoder: &mut Decoder<R>,
    alloc: Global,
) -> Result<C, Error>
    ensures read { Tells R.remaining → AnswersAt (take_memory C.list.fields) (ReadsValue (λ s. MeansComposite (table_of (table_with C.names C.list))))
        (MemberFault (composite_members (table_with C.names C.list))) decoder.old result decoder.new }
    ensures tries { Tries (take_memory C.list.fields) decoder.old result decoder.new }
{
    decoder.begin_one_of(&[C::descriptor()])?;
    let mut value = <C as FieldList>::blank(alloc);
    fill_fields(&mut value, decoder, alloc)?;
    decoder.end_described()?;
    Ok(value)
}

/// Writes a composite under its descriptor's code. It returns the encoder's errors for its fields.
#[inline(always)]
pub fn write_composite<L: FieldList, P: Pass>(
    value: &L,
    code: u64,
    encoder: &mut Encoder<P>,
) -> Result<(), Error>
    ensures { WritesTerms (described (code_of code) (canonical_list (slots L.list.fields) value.now) ∷ []) encoder.old result encoder.new }
{
    encoder.begin_composite(code)?;
    write_fields(value, encoder)?;
    encoder.end_composite()
}
