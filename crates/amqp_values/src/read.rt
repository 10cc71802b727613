//! How values of any kind are read: by the kind of what comes next. A value that holds others is read with them.
ghost use Rattle.std.specs.Prelude.{◌≡◌, suc, true, Some, IfOk, IfErr};
ghost use Rattle.amqp_model.specs.Term.{list, array};
ghost use Rattle.amqp_wire.specs.declared.error.Error.TheVariants.{Depth};
ghost use Rattle.amqp_wire.specs.Sources.{Tells};
ghost use Rattle.amqp_decoder.specs.Primitives.{ReadsValue};
ghost use Rattle.amqp_decoder.specs.Places.{AnswersAt};
ghost use Rattle.amqp_decoder.specs.Steps.{RefusesBy, Passes, Tries};
ghost use Rattle.amqp_codec.specs.ItemsReading.{ReadsRow, RowFault};
ghost use Rattle.amqp_codec.specs.MapReading.{ReadsPairsRow, PairsFault};
ghost use Rattle.amqp_kinds.specs.declared.kind.Kind.TheVariants as kind;
ghost use Rattle.amqp_kinds.specs.KindReading.{ReadsMember};
ghost use Rattle.amqp_values.specs.declared.value.Value.TheVariants.{Null};
ghost use Rattle.amqp_values.specs.ValueMembers.{ValueMeans, IsOfItems, MeansValues, IsDescribed, MeansDescribed, IsOfPairs, MeansPairs};
ghost use Rattle.amqp_values.specs.Levels.{faults_of, faults_at, value_in, IsBounded, AnswersEach};
ghost use Rattle.amqp_values.specs.ValueType.{value_type, value_agreement};
ghost use Rattle.amqp_values.specs.ValueMapType.{value_map_type, value_map_agreement};

use crate::keys::has_equal_keys;
use crate::typing::descriptor_typed;
use crate::{Value, ValueMap};
use amqp_codec::DeserializeTerm;
use amqp_containers::Array;
use amqp_decoder::Decoder;
use amqp_described::Described;
use amqp_kinds::{Kind, kind_of, read_as};
use amqp_primitives::{Binary, Dec32, Dec64, Dec128, Timestamp, Uuid};
use amqp_wire::nesting::LEVELS;
use amqp_wire::{ByteSource, Error, Symbol};
use std::alloc::Global;

// One level less. None is left only in an array as deep as an array may be, in which no other container opens.
fn one_less<R: ByteSource>(decoder: &mut Decoder<R>, levels: usize) -> Result<usize, Error>
    ensures ok { IfOk result (λ inner. (levels ≡ suc inner) × (decoder.new ≡ decoder.old)) }
    ensures err { IfErr result (λ e. (levels ≡ 0) × RefusesBy Depth decoder.old e decoder.new) }
{
    match levels.checked_sub(1) {
        Some(inner) => Ok(inner),
        None => Err(decoder.refuse(Error::Depth)),
    }
}

// Reads a value that holds at most so many levels of others.
#[cycle(reading)]
fn read_any<R: ByteSource>(
    decoder: &mut Decoder<R>,
    levels: usize,
    alloc: Global,
) -> Result<Value, Error>
    ensures read { Tells R.remaining → IsBounded levels decoder.old → AnswersAt true (ReadsValue ValueMeans) (faults_at (suc levels)).fault
        decoder.old result decoder.new }
    ensures tries { Tries true decoder.old result decoder.new }
{
    let code = decoder.peek_code()?;
    match kind_of(code) {
        Kind::Null => read_as::<(), Value, R>(decoder, alloc),
        Kind::Bool => read_as::<bool, Value, R>(decoder, alloc),
        Kind::Ubyte => read_as::<u8, Value, R>(decoder, alloc),
        Kind::Ushort => read_as::<u16, Value, R>(decoder, alloc),
        Kind::Uint => read_as::<u32, Value, R>(decoder, alloc),
        Kind::Ulong => read_as::<u64, Value, R>(decoder, alloc),
        Kind::Byte => read_as::<i8, Value, R>(decoder, alloc),
        Kind::Short => read_as::<i16, Value, R>(decoder, alloc),
        Kind::Int => read_as::<i32, Value, R>(decoder, alloc),
        Kind::Long => read_as::<i64, Value, R>(decoder, alloc),
        Kind::Decimal32 => read_as::<Dec32, Value, R>(decoder, alloc),
        Kind::Decimal64 => read_as::<Dec64, Value, R>(decoder, alloc),
        Kind::Decimal128 => read_as::<Dec128, Value, R>(decoder, alloc),
        Kind::Char => read_as::<char, Value, R>(decoder, alloc),
        Kind::Timestamp => read_as::<Timestamp, Value, R>(decoder, alloc),
        Kind::Uuid => read_as::<Uuid, Value, R>(decoder, alloc),
        Kind::Binary => read_as::<Binary, Value, R>(decoder, alloc),
        Kind::String => read_as::<String, Value, R>(decoder, alloc),
        Kind::Symbol => read_as::<Symbol, Value, R>(decoder, alloc),
        Kind::Described => read_described(decoder, levels, alloc),
        Kind::List => read_list(decoder, levels, alloc),
        Kind::Map => read_map(decoder, levels, alloc),
        Kind::Array => read_array(decoder, levels, alloc),
    }
}

// Reads a described value.
#[cycle(reading)]
fn read_described<R: ByteSource>(
    decoder: &mut Decoder<R>,
    levels: usize,
    alloc: Global,
) -> Result<Value, Error>
    ensures read { Tells R.remaining → IsBounded levels decoder.old → AnswersAt true (ReadsMember MeansDescribed IsDescribed)
        (faults_of (faults_at levels) kind.Described).fault decoder.old result decoder.new }
    ensures tries { Tries true decoder.old result decoder.new }
{
    let descriptor = decoder.begin_described(alloc)?;
    descriptor_typed(&descriptor);
    let inner = one_less(decoder, levels)?;
    let value = read_any(decoder, inner, alloc)?;
    decoder.end_described()?;
    match Box::new(alloc, Described { descriptor, value }) {
        Ok(boxed) => Ok(Value::Described(boxed)),
        Err(_) => Err(decoder.refuse(Error::Memory)),
    }
}

// Reads a list.
#[cycle(reading)]
fn read_list<R: ByteSource>(
    decoder: &mut Decoder<R>,
    levels: usize,
    alloc: Global,
) -> Result<Value, Error>
    ensures read { Tells R.remaining → IsBounded levels decoder.old → AnswersAt true (ReadsMember (MeansValues list) (IsOfItems list))
        (faults_of (faults_at levels) kind.List).fault decoder.old result decoder.new }
    ensures tries { Tries true decoder.old result decoder.new }
{
    let count = decoder.begin_list()?;
    let inner = one_less(decoder, levels)?;
    let values = read_row(count, decoder, inner, alloc)?;
    decoder.end_list()?;
    Ok(Value::List(values))
}

// Reads an array.
#[cycle(reading)]
fn read_array<R: ByteSource>(
    decoder: &mut Decoder<R>,
    levels: usize,
    alloc: Global,
) -> Result<Value, Error>
    ensures read { Tells R.remaining → IsBounded levels decoder.old → AnswersAt true (ReadsMember (MeansValues array) (IsOfItems array))
        (faults_of (faults_at levels) kind.Array).fault decoder.old result decoder.new }
    ensures tries { Tries true decoder.old result decoder.new }
{
    let count = decoder.begin_array(alloc)?;
    let inner = one_less(decoder, levels)?;
    let values = read_row(count, decoder, inner, alloc)?;
    decoder.end_array()?;
    Ok(Value::Array(Array(values)))
}

// Reads a map. The count is of keys and values, and is even: an odd one is `OddCount` if the map is begun.
#[cycle(reading)]
fn read_map<R: ByteSource>(
    decoder: &mut Decoder<R>,
    levels: usize,
    alloc: Global,
) -> Result<Value, Error>
    ensures read { Tells R.remaining → IsBounded levels decoder.old → AnswersAt true (ReadsMember MeansPairs IsOfPairs)
        (faults_of (faults_at levels) kind.Map).fault decoder.old result decoder.new }
    ensures tries { Tries true decoder.old result decoder.new }
{
    let count = decoder.begin_map()?;
    let inner = one_less(decoder, levels)?;
    let pairs = read_pairs(count / 2, decoder, inner, alloc)?;
    decoder.end_map()?;
    Ok(Value::Map(ValueMap(pairs)))
}

// Reads so many values one after another. Memory is reserved for as many as `Decoder::reservable_items` says, and then allocated as values
// come.
#[cycle(reading)]
fn read_row<R: ByteSource>(
    count: u32,
    decoder: &mut Decoder<R>,
    levels: usize,
    alloc: Global,
) -> Result<Vec<Value>, Error>
    ensures read { Tells R.remaining → IsBounded levels decoder.old → AnswersEach (ReadsRow count ValueMeans)
        (RowFault count ValueMeans (faults_at (suc levels)).fault) decoder.old result decoder.new }
    ensures tries { Passes true decoder.old result decoder.new }
{
    let Ok(mut values) = Vec::with_capacity(alloc, decoder.reservable_items(count)) else {
        return Err(decoder.refuse(Error::Memory));
    };
    for _ in 0..count {
        let value = read_any(decoder, levels, alloc)?;
        if values.push(value).is_err() {
            return Err(decoder.refuse(Error::Memory));
        }
    }
    Ok(values)
}

// Reads so many pairs one after another, and compares their keys after the last: two that are equal are `DuplicateKey`. Memory is reserved
// for half as many as `Decoder::reservable_items` says of their keys and values.
#[cycle(reading)]
fn read_pairs<R: ByteSource>(
    count: u32,
    decoder: &mut Decoder<R>,
    levels: usize,
    alloc: Global,
) -> Result<Vec<(Value, Value)>, Error>
    ensures read { Tells R.remaining → IsBounded levels decoder.old → AnswersEach (ReadsPairsRow (value_in levels) (value_in levels) count)
        (PairsFault (value_in levels) (value_in levels) count) decoder.old result decoder.new }
    ensures tries { Passes true decoder.old result decoder.new }
{
    let reserved = decoder.reservable_items(count.saturating_mul(2)) / 2;
    let Ok(mut pairs) = Vec::with_capacity(alloc, reserved) else {
        return Err(decoder.refuse(Error::Memory));
    };
    for _ in 0..count {
        let key = read_any(decoder, levels, alloc)?;
        let value = read_any(decoder, levels, alloc)?;
        if pairs.push((key, value)).is_err() {
            return Err(decoder.refuse(Error::Memory));
        }
    }
    match has_equal_keys(pairs.as_slice(), alloc) {
        Ok(false) => Ok(pairs),
        Ok(true) => Err(decoder.refuse(Error::DuplicateKey)),
        Err(_) => Err(decoder.refuse(Error::Memory)),
    }
}

impl DeserializeTerm for Value {
    ghost term = { value_type };

    ghost meant_by_null = { Some Null };

    fn read_value<R: ByteSource>(decoder: &mut Decoder<R>, alloc: Global) -> Result<Value, Error> {
        decoder.room();
        read_any(decoder, LEVELS, alloc)
    }

    ghost agreement = { value_agreement };
}

impl DeserializeTerm for ValueMap {
    ghost term = { value_map_type };

    fn read_value<R: ByteSource>(
        decoder: &mut Decoder<R>,
        alloc: Global,
    ) -> Result<ValueMap, Error> {
        decoder.room();
        let count = decoder.begin_map()?;
        let pairs = read_pairs(count / 2, decoder, LEVELS - 1, alloc)?;
        decoder.end_map()?;
        Ok(ValueMap(pairs))
    }

    ghost agreement = { value_map_agreement };
}
