//! Lists of fields (Part 1, section 1.4): one reader and one writer for all. Only they handle omitted ends, surplus items, defaults and
//! trailing nulls.
ghost use Rattle.std.specs.Prelude.{◌≡◌, ◌<◌, ◌≤◌, ◌+◌, false, [], ◌∷◌, suc, length, None, Ok, Some, IfOk, IfErr};
ghost use Rattle.amqp_model.specs.Items.{is_null};
ghost use Rattle.amqp_model.specs.Fields.{rules_of, canonical_items};
ghost use Rattle.amqp_model.specs.Composite.{MeansList, canonical_list};
ghost use Rattle.amqp_encoder.specs.State.{Encoder as EncoderState};
ghost use Rattle.amqp_encoder.specs.Passes.{answer_of};
ghost use Rattle.amqp_encoder.specs.Tokens.{nulls as nulls_of};
ghost use Rattle.amqp_encoder.specs.Writes.{Writes};
ghost use Rattle.amqp_codec.specs.FieldWriting.{IsPending, WritesUpTo};
ghost use Rattle.amqp_codec.specs.Slots.{MeansSome};
ghost use Rattle.amqp_codec.specs.Fields.{slots, canon_at, take_memory, takes_at};
ghost use Rattle.amqp_codec.specs.Written.{WritesTerms};
ghost use Rattle.amqp_wire.specs.Sources.{Tells};
ghost use Rattle.amqp_decoder.specs.Reading.{BeginFault};
ghost use Rattle.amqp_decoder.specs.Places.{AnswersAt, Here, StandsBefore};
ghost use Rattle.amqp_decoder.specs.Primitives.{ReadsValue};
ghost use Rattle.amqp_decoder.specs.Steps.{RefusesBy, Tries};
ghost use Rattle.amqp_codec.specs.FieldReading.{FieldsFault, Fills, FillsAll, FillsField, IsBlank, ReadsItem, TakesNull, absence, rule_at};

use crate::DeserializeTerm;
use amqp_decoder::Decoder;
use amqp_encoder::{Encoder, Pass};
pub use amqp_model::tables::FieldRule;
use amqp_wire::{ByteSource, Error, format_code};
use std::alloc::Global;
use std::mem::replace;

/// A value that is a list of fields. It gives its fields by their numbers, and `read_list` and `write_list` do the rest. Each composite is
/// one, after its descriptor; a user's own type may be one by itself.
pub trait FieldList: Sized + Drop {
    ghost use Rattle.amqp_codec.specs.ListType.{ListTable};

    ghost list: { ListTable Self };

    /// Returns the rules of the fields, in order.
    fn field_rules() -> &'static [FieldRule]
        ensures { result.now ≡ rules_of (slots list.fields) };

    /// Returns a value whose optional fields are absent and whose default fields hold their defaults. What a mandatory field holds doesn't
    /// matter: the field is read before the value is returned.
    fn blank(alloc: Global) -> Self
        ensures { IsBlank list.fields result };

    /// Reads the field of this number, from 0 on, whose item is present and isn't null. It returns the errors of the field's type.
    fn fill_field<R: ByteSource>(
        &mut self,
        index: usize,
        decoder: &mut Decoder<R>,
        alloc: Global,
    ) -> Result<(), Error>
        requires within { index < length (rules_of (slots list.fields)) }
        ensures read { Tells R.remaining → FillsField list.fields index self.old self.new decoder.old result decoder.new }
        ensures tries { Tries (takes_at list.fields index) decoder.old result decoder.new };

    /// Returns whether the field of this number, from 0 on, is written as null.
    fn is_null_field(&self, index: usize) -> bool
        requires within { index < length (rules_of (slots list.fields)) }
        ensures { result ≡ is_null (canon_at list.fields index self.now) };

    /// Writes the field of this number, from 0 on, which isn't null.
    fn write_field<P: Pass>(&self, index: usize, encoder: &mut Encoder<P>) -> Result<(), Error>
        requires within { index < length (rules_of (slots list.fields)) }
        ensures { is_null (canon_at list.fields index self.now) ≡ false
            → WritesTerms (canon_at list.fields index self.now ∷ []) encoder.old result encoder.new };
}

/// Reads a value into its place. It returns the errors of the value's type.
#[inline(always)]
pub fn read_into<T: DeserializeTerm, R: ByteSource>(
    place: &mut T,
    decoder: &mut Decoder<R>,
    alloc: Global,
) -> Result<(), Error>
    ensures read { Tells R.remaining → Fills T.term.takes_memory T.term.means T.term.faults.fault decoder.old place.new result decoder.new }
    ensures tries { Tries T.term.takes_memory decoder.old result decoder.new }
{
    match T::read_value(decoder, alloc) {
        Ok(value) => {
            *place = value;
            Ok(())
        }
        Err(error) => Err(error),
    }
}

/// Reads a value into the place of an optional one. It returns the errors of the value's type.
#[inline(always)]
pub fn read_some<T: DeserializeTerm, R: ByteSource>(
    place: &mut Option<T>,
    decoder: &mut Decoder<R>,
    alloc: Global,
) -> Result<(), Error>
    ensures read { Tells R.remaining → Fills T.term.takes_memory (λ s t. MeansSome (T.term.means s t)) T.term.faults.fault
        decoder.old place.new result decoder.new }
    ensures tries { Tries T.term.takes_memory decoder.old result decoder.new }
{
    match T::read_value(decoder, alloc) {
        Ok(value) => {
            *place = Some(value);
            Ok(())
        }
        Err(error) => Err(error),
    }
}

/// Writes a value as its type says.
#[inline(always)]
pub fn write_value<T: DeserializeTerm, P: Pass>(
    value: &T,
    encoder: &mut Encoder<P>,
) -> Result<(), Error>
    ensures { WritesTerms (T.term.canon value.now ∷ []) encoder.old result encoder.new }
{
    value.serialize(encoder)
}

/// Promises that what a field holds is a value of its type. It does nothing.
pub fn value_in_type<T: DeserializeTerm>(value: &T)
    ensures { T.term.is_value value.now }
{
    value.in_type();
}

// The error for a field that is null or omitted but must be present.
fn absence(rule: FieldRule) -> Option<Error>
    ensures { result ≡ absence rule }
{
    match rule {
        FieldRule::Mandatory => Some(Error::Missing),
        FieldRule::MandatoryMultiple => Some(Error::EmptyMultiple),
        FieldRule::Optional | FieldRule::Default | FieldRule::Multiple => None,
    }
}

// A field may be null, which was taken.
#[inline(always)]
fn check_absent<R: ByteSource>(rule: FieldRule, decoder: &mut Decoder<R>) -> Result<(), Error>
    ensures ok { IfOk result (λ _. (absence rule ≡ None) × (decoder.new ≡ decoder.old)) }
    ensures err { IfErr result (λ e. (error : _) × (absence rule ≡ Some error) × RefusesBy error decoder.old e decoder.new) }
    ensures place { IfErr result (λ _. decoder.old.error ≡ None
        → StandsBefore (suc (length decoder.old.rest)) decoder.old decoder.new) }
{
    match absence(rule) {
        Some(error) => Err(decoder.refuse_before(error)),
        None => Ok(()),
    }
}

/// Reads a list of fields, which may come after a descriptor that was read, into a blank value. It returns the errors of `read_list`, and
/// then some of the fields may hold what was read.
#[inline(always)]
pub fn fill_fields<L: FieldList, R: ByteSource>(
    value: &mut L,
    decoder: &mut Decoder<R>,
    alloc: Global,
) -> Result<(), Error>
    ensures read { IsBlank L.list.fields value.old → Tells R.remaining →
        FillsAll L.list.fields value.new decoder.old result decoder.new }
    ensures tries { Tries (take_memory L.list.fields) decoder.old result decoder.new }
{
    let count = decoder.begin_list()? as usize;
    for (index, rule) in L::field_rules().iter().enumerate() {
        if index < count {
            read_item(value, index, *rule, decoder, alloc)?;
        } else if let Some(error) = absence(*rule) {
            return Err(decoder.refuse(error));
        }
    }
    decoder.end_list()
}

/// Reads a value that is a list of fields by itself, without a descriptor.
///
/// # Errors
///
/// It returns `Missing` or `EmptyMultiple` if a mandatory field is null or omitted, and `Surplus` if items follow the last field. Any other
/// error is that of a field's type, or of the list itself.
pub fn read_list<L: FieldList, R: ByteSource>(
    decoder: &mut Decoder<R>,
    alloc: Global,
) -> Result<L, Error>
    ensures read { Tells R.remaining → AnswersAt (take_memory L.list.fields) (ReadsValue (λ s. MeansList (slots L.list.fields)))
        (FieldsFault L.list.fields) decoder.old result decoder.new }
    ensures tries { Tries (take_memory L.list.fields) decoder.old result decoder.new }
{
    let mut value = L::blank(alloc);
    match fill_fields(&mut value, decoder, alloc) {
        Ok(()) => Ok(value),
        Err(error) => Err(error),
    }
}

// Takes a null if one comes next, and returns whether it did. Otherwise it takes nothing.
#[inline(always)]
fn takes_null<R: ByteSource>(decoder: &mut Decoder<R>) -> Result<bool, Error>
    ensures read { Tells R.remaining → AnswersAt false TakesNull (Here BeginFault) decoder.old result decoder.new }
    ensures tries { Tries false decoder.old result decoder.new }
{
    match decoder.peek_value() {
        Some(format_code::NULL) => match decoder.read_null() {
            Ok(()) => Ok(true),
            Err(error) => Err(error),
        },
        Some(_) => Ok(false),
        None => takes_any_null(decoder),
    }
}

// The same, however the source gives it.
#[inline(never)]
fn takes_any_null<R: ByteSource>(decoder: &mut Decoder<R>) -> Result<bool, Error>
    ensures read { Tells R.remaining → AnswersAt false TakesNull (Here BeginFault) decoder.old result decoder.new }
    ensures tries { Tries false decoder.old result decoder.new }
{
    if decoder.peek_code()? != format_code::NULL {
        return Ok(false);
    }
    decoder.read_null()?;
    Ok(true)
}

// Reads an item into its field.
#[inline(always)]
fn read_item<L: FieldList, R: ByteSource>(
    value: &mut L,
    index: usize,
    rule: FieldRule,
    decoder: &mut Decoder<R>,
    alloc: Global,
) -> Result<(), Error>
    requires within { index < length (rules_of (slots L.list.fields)) }
    requires its_rule { rule ≡ rule_at L.list.fields index }
    ensures read { Tells R.remaining → ReadsItem L.list.fields index value.old value.new decoder.old result decoder.new }
    ensures tries { Tries (takes_at L.list.fields index) decoder.old result decoder.new }
{
    match takes_null(decoder) {
        Ok(true) => check_absent(rule, decoder),
        Ok(false) => value.fill_field(index, decoder, alloc),
        Err(error) => Err(error),
    }
}

/// Writes a value as the list of its fields, without the nulls at its end. It returns the errors of its fields.
#[inline(always)]
pub fn write_list<L: FieldList, P: Pass>(value: &L, encoder: &mut Encoder<P>) -> Result<(), Error>
    ensures { WritesTerms (canonical_list (slots L.list.fields) value.now ∷ []) encoder.old result encoder.new }
{
    encoder.begin_list()?;
    write_fields(value, encoder)?;
    encoder.end_list()
}

/// Writes the fields of a value into a list that was begun, without the nulls at its end. It returns the errors of the fields.
#[inline(always)]
pub(crate) fn write_fields<L: FieldList, P: Pass>(
    value: &L,
    encoder: &mut Encoder<P>,
) -> Result<(), Error>
    requires going { answer_of encoder.now ≡ Ok tt }
    ensures { WritesTerms (canonical_items (slots L.list.fields) value.now) encoder.old result encoder.new }
{
    let mut nulls = 0;
    match write_sixteen(value, &mut nulls, encoder) {
        Ok(()) => write_others(value, &mut nulls, encoder),
        Err(error) => Err(error),
    }
}

// Writes the fields after the first sixteen.
#[inline(always)]
fn write_others<L: FieldList, P: Pass>(
    value: &L,
    nulls: &mut usize,
    encoder: &mut Encoder<P>,
) -> Result<(), Error>
    requires nulls { nulls.old ≤ 16 }
    ensures { (start : EncoderState) → IsPending L.list.fields value.now 16 nulls.old start encoder.old
        → WritesTerms (canonical_items (slots L.list.fields) value.now) start result encoder.new }
{
    for index in 16..L::field_rules().len() {
        if let Err(error) = write_one(value, index, nulls, encoder) {
            return Err(error);
        }
    }
    Ok(())
}

// Writes the first sixteen fields, as far as there are so many.
fn write_sixteen<L: FieldList, P: Pass>(
    value: &L,
    nulls: &mut usize,
    encoder: &mut Encoder<P>,
) -> Result<(), Error>
    requires nulls { nulls.old ≡ 0 }
    ensures written { (start : EncoderState) → IsPending L.list.fields value.now 0 0 start encoder.old
        → WritesUpTo L.list.fields value.now 16 start result nulls.new encoder.new }
    ensures nulls { nulls.new ≤ 16 }
{
    write_four::<L, P, 0>(value, nulls, encoder)?;
    write_four::<L, P, 4>(value, nulls, encoder)?;
    write_four::<L, P, 8>(value, nulls, encoder)?;
    write_four::<L, P, 12>(value, nulls, encoder)
}

// Writes four fields, as far as there are so many, from this number on. The compiler knows the number of each, and leaves the code of that
// field alone.
fn write_four<L: FieldList, P: Pass, const FROM: usize>(
    value: &L,
    nulls: &mut usize,
    encoder: &mut Encoder<P>,
) -> Result<(), Error>
    requires from { FROM ≤ 12 }
    requires nulls { nulls.old ≤ FROM }
    ensures written { (start : EncoderState) → IsPending L.list.fields value.now FROM nulls.old start encoder.old
        → WritesUpTo L.list.fields value.now (FROM + 4) start result nulls.new encoder.new }
    ensures nulls { nulls.new ≤ FROM + 4 }
{
    write_one(value, FROM, nulls, encoder)?;
    write_one(value, FROM + 1, nulls, encoder)?;
    write_one(value, FROM + 2, nulls, encoder)?;
    write_one(value, FROM + 3, nulls, encoder)
}

// Writes a field and the nulls before it, or counts one more null.
#[inline(always)]
fn write_one<L: FieldList, P: Pass>(
    value: &L,
    index: usize,
    nulls: &mut usize,
    encoder: &mut Encoder<P>,
) -> Result<(), Error>
    requires nulls { nulls.old ≤ index }
    ensures written { (start : EncoderState) → IsPending L.list.fields value.now index nulls.old start encoder.old
        → WritesUpTo L.list.fields value.now (index + 1) start result nulls.new encoder.new }
    ensures nulls { nulls.new ≤ index + 1 }
{
    if index >= L::field_rules().len() {
        return Ok(());
    }
    if value.is_null_field(index) {
        *nulls += 1;
        return Ok(());
    }
    match write_pending(nulls, encoder) {
        Ok(()) => value.write_field(index, encoder),
        Err(error) => Err(error),
    }
}

// Writes the nulls that were counted.
#[inline(always)]
fn write_pending<P: Pass>(nulls: &mut usize, encoder: &mut Encoder<P>) -> Result<(), Error>
    ensures none { nulls.old ≡ 0 → (encoder.new ≡ encoder.old) × (result ≡ Ok tt) }
    ensures written { 0 < nulls.old → Writes encoder.old (nulls_of nulls.old) result encoder.new }
    ensures counted { nulls.new ≡ 0 }
{
    if *nulls == 0 {
        return Ok(());
    }
    encoder.write_nulls(replace(nulls, 0))
}
