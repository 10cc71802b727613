//! How values of any kind are written: as their kind is. A value that holds others is written with them.
ghost use Rattle.std.specs.Prelude.{◌≡◌, ◌⊎◌, Ok, false, IfOk, IfErr, refl};
ghost use Rattle.std.specs.List.{flat_map};
ghost use Rattle.amqp_encoder.specs.Passes.{answer_of};
ghost use Rattle.amqp_encoder.specs.Writes.{Fills, pass_of};
ghost use Rattle.amqp_codec.specs.Agreement.{via_writing};
ghost use Rattle.amqp_codec.specs.EqualKeys.{has_equal_keys};
ghost use Rattle.amqp_codec.specs.Written.{WritesTerms};
ghost use Rattle.amqp_values.specs.declared.value.Value.{Map as MapOf};
ghost use Rattle.amqp_values.specs.Canon.{value_canons, pair_canon};
ghost use Rattle.amqp_values.specs.Equality.{turn_terms};
ghost use Rattle.amqp_values.specs.ValueWriting.{value_writing};
ghost use Rattle.amqp_values.specs.Values.{pairs_of};

use crate::keys::has_equal_keys;
use crate::typing::{map_typed, value_typed};
use crate::{Value, ValueMap};
use amqp_codec::{Serialize, SerializeTerm};
use amqp_encoder::{Encoder, Pass};
use amqp_wire::Error;
use std::alloc::AllocError;

// Writes a value.
#[cycle(writing)]
pub(crate) fn write_value<P: Pass>(value: &Value, encoder: &mut Encoder<P>) -> Result<(), Error>
    ensures { WritesTerms (value_canons value.now) encoder.old result encoder.new }
{
    match value {
        Value::Null => encoder.write_null(),
        Value::Bool(value) => encoder.write_bool(*value),
        Value::Ubyte(value) => encoder.write_ubyte(*value),
        Value::Ushort(value) => encoder.write_ushort(*value),
        Value::Uint(value) => encoder.write_uint(*value),
        Value::Ulong(value) => encoder.write_ulong(*value),
        Value::Byte(value) => encoder.write_byte(*value),
        Value::Short(value) => encoder.write_short(*value),
        Value::Int(value) => encoder.write_int(*value),
        Value::Long(value) => encoder.write_long(*value),
        Value::Decimal32(value) => encoder.write_dec32(value.0),
        Value::Decimal64(value) => encoder.write_dec64(value.0),
        Value::Decimal128(value) => encoder.write_dec128(value.0),
        Value::Char(value) => encoder.write_char(*value),
        Value::Timestamp(value) => encoder.write_timestamp(value.0),
        Value::Uuid(value) => encoder.write_uuid(value.0),
        Value::Binary(value) => encoder.write_binary(value.as_slice()),
        Value::String(value) => encoder.write_string(value.as_str()),
        Value::Symbol(value) => encoder.write_symbol(value.as_str()),
        Value::Described(value) => {
            encoder.begin_described(&value.descriptor)?;
            write_value(&value.value, encoder)?;
            encoder.end_described()
        }
        Value::List(values) => {
            encoder.begin_list()?;
            write_values(values.as_slice(), encoder)?;
            encoder.end_list()
        }
        Value::Map(map) => write_map(map, encoder),
        Value::Array(values) => {
            encoder.begin_array()?;
            write_values(values.0.as_slice(), encoder)?;
            encoder.end_array()
        }
    }
}

// Writes values one after another, to an encoder that has refused nothing.
#[cycle(writing)]
fn write_values<P: Pass>(values: &[Value], encoder: &mut Encoder<P>) -> Result<(), Error>
    requires going { answer_of encoder.now ≡ Ok tt }
    ensures { WritesTerms (flat_map value_canons values.now) encoder.old result encoder.new }
{
    for index in 0..values.len() {
        write_value(&values[index], encoder)?;
    }
    Ok(())
}

// Whether two keys of a map are equal. A map that is filled was measured before, and has none that are.
fn has_equal_keys_to_write<P: Pass>(
    map: &ValueMap,
    encoder: &Encoder<P>,
) -> Result<bool, AllocError>
    ensures found { IfOk result (λ found. (found ≡ has_equal_keys (turn_terms (pairs_of map.now)))
        ⊎ ((found ≡ false) × Fills (pass_of encoder.now))) }
    ensures memory { IfErr result (λ _. Fills (pass_of encoder.now) → ⊥) }
{
    if encoder.fills() {
        return Ok(false);
    }
    has_equal_keys(map.0.as_slice(), *map.0.allocator())
}

// Writes a map. One with equal keys is refused with `DuplicateKey`.
#[cycle(writing)]
fn write_map<P: Pass>(map: &ValueMap, encoder: &mut Encoder<P>) -> Result<(), Error>
    ensures { WritesTerms (value_canons (MapOf map.now)) encoder.old result encoder.new }
{
    match has_equal_keys_to_write(map, encoder) {
        Ok(false) => {}
        Ok(true) => return encoder.refuse(Error::DuplicateKey),
        Err(_) => return encoder.refuse(Error::Memory),
    }
    encoder.begin_map()?;
    write_pairs(map.0.as_slice(), encoder)?;
    encoder.end_map()
}

// Writes keys and values in turn, to an encoder that has refused nothing.
#[cycle(writing)]
fn write_pairs<P: Pass>(pairs: &[(Value, Value)], encoder: &mut Encoder<P>) -> Result<(), Error>
    requires going { answer_of encoder.now ≡ Ok tt }
    ensures { WritesTerms (flat_map pair_canon pairs.now) encoder.old result encoder.new }
{
    for index in 0..pairs.len() {
        let pair = &pairs[index];
        write_value(&pair.0, encoder)?;
        write_value(&pair.1, encoder)?;
    }
    Ok(())
}

impl Serialize for Value {
    ghost writing = { value_writing };

    fn serialize<P: Pass>(&self, encoder: &mut Encoder<P>) -> Result<(), Error> {
        write_value(self, encoder)
    }

    fn in_type(&self) {
        value_typed(self)
    }
}

impl SerializeTerm for Value {
    fn is_null(&self) -> bool {
        matches!(self, Value::Null)
    }

    ghost is_term = { λ v. refl };
}

impl Serialize for ValueMap {
    ghost writing = { via_writing MapOf value_writing };

    fn serialize<P: Pass>(&self, encoder: &mut Encoder<P>) -> Result<(), Error> {
        write_map(self, encoder)
    }

    fn in_type(&self) {
        map_typed(self)
    }
}

impl SerializeTerm for ValueMap {
    fn is_null(&self) -> bool {
        false
    }

    ghost is_term = { λ v. refl };
}
