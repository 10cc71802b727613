//! The calls of an encoder as steps.
use amqp_encoder::{
    Encoder, Measure, Pass, buffer_of, filling_encoder, measured_len, measuring_encoder,
};
use amqp_wire::{Descriptor, Error};
use std::alloc::Global;

/// One call of an encoder.
#[derive(Clone, Copy)]
pub(crate) enum Step<'a> {
    BeginList,
    EndList,
    BeginMap,
    EndMap,
    BeginArray,
    EndArray,
    BeginDescribed(u64),
    BeginNamed(&'a str),
    EndDescribed,
    Null,
    Bool(bool),
    Ubyte(u8),
    Ushort(u16),
    Uint(u32),
    Ulong(u64),
    Byte(i8),
    Short(i16),
    Int(i32),
    Long(i64),
    Dec32([u8; 4]),
    Dec64([u8; 8]),
    Dec128([u8; 16]),
    Char(char),
    Timestamp(i64),
    Uuid([u8; 16]),
    /// So many bytes 0x61.
    Binary(u32),
    Text(&'a str),
    Symbol(&'a str),
    /// The bytes of a term without items.
    Term(&'a [u8]),
    Refuse(Error),
}

fn begin_named<P: Pass>(name: &str, encoder: &mut Encoder<P>, alloc: Global) -> Result<(), Error> {
    let name = String::from_str(alloc, name)?;
    encoder.begin_described(&Descriptor::Name(name.into()))
}

fn write_binary<P: Pass>(len: u32, encoder: &mut Encoder<P>, alloc: Global) -> Result<(), Error> {
    let mut bytes: Vec<u8> = Vec::new(alloc);
    bytes.resize(len as usize, 0x61)?;
    encoder.write_binary(&bytes)
}

fn write_primitive<P: Pass>(
    step: Step<'_>,
    encoder: &mut Encoder<P>,
    alloc: Global,
) -> Result<(), Error> {
    match step {
        Step::Bool(value) => encoder.write_bool(value),
        Step::Ubyte(value) => encoder.write_ubyte(value),
        Step::Ushort(value) => encoder.write_ushort(value),
        Step::Uint(value) => encoder.write_uint(value),
        Step::Ulong(value) => encoder.write_ulong(value),
        Step::Byte(value) => encoder.write_byte(value),
        Step::Short(value) => encoder.write_short(value),
        Step::Int(value) => encoder.write_int(value),
        Step::Long(value) => encoder.write_long(value),
        Step::Dec32(value) => encoder.write_dec32(value),
        Step::Dec64(value) => encoder.write_dec64(value),
        Step::Dec128(value) => encoder.write_dec128(value),
        Step::Char(value) => encoder.write_char(value),
        Step::Timestamp(value) => encoder.write_timestamp(value),
        Step::Uuid(value) => encoder.write_uuid(value),
        Step::Binary(len) => write_binary(len, encoder, alloc),
        Step::Text(text) => encoder.write_string(text),
        Step::Symbol(text) => encoder.write_symbol(text),
        Step::Term(bytes) => encoder.write_term(bytes, 0),
        _ => encoder.write_null(),
    }
}

/// Makes one call.
pub(crate) fn take_step<P: Pass>(
    step: Step<'_>,
    encoder: &mut Encoder<P>,
    alloc: Global,
) -> Result<(), Error> {
    match step {
        Step::BeginList => encoder.begin_list(),
        Step::EndList => encoder.end_list(),
        Step::BeginMap => encoder.begin_map(),
        Step::EndMap => encoder.end_map(),
        Step::BeginArray => encoder.begin_array(),
        Step::EndArray => encoder.end_array(),
        Step::BeginDescribed(code) => encoder.begin_described(&Descriptor::Code(code)),
        Step::BeginNamed(name) => begin_named(name, encoder, alloc),
        Step::EndDescribed => encoder.end_described(),
        Step::Refuse(error) => encoder.refuse(error),
        _ => write_primitive(step, encoder, alloc),
    }
}

/// Takes the steps in turn, up to one that is refused.
pub(crate) fn write<P: Pass>(
    steps: &[Step<'_>],
    encoder: &mut Encoder<P>,
    alloc: Global,
) -> Result<(), Error> {
    for step in steps {
        take_step(*step, encoder, alloc)?;
    }
    Ok(())
}

/// Returns what a measuring pass over the steps returns.
pub(crate) fn measure(
    steps: &[Step<'_>],
    encoder: &mut Encoder<Measure>,
    alloc: Global,
) -> Result<usize, Error> {
    write(steps, encoder, alloc)?;
    measured_len(encoder)
}

/// Appends the bytes of the steps to those of a buffer. After an error the buffer has only its old bytes.
pub(crate) fn append(steps: &[Step<'_>], buffer: &mut Vec<u8>, alloc: Global) -> Result<(), Error> {
    let mut encoder = measuring_encoder(alloc);
    let len = measure(steps, &mut encoder, alloc)?;
    let before = buffer.len();
    let Some(limit) = before.checked_add(len) else {
        return Err(Error::TooLarge);
    };
    buffer.reserve_exact(len)?;
    let room = std::mem::replace(buffer, Vec::new(alloc));
    let mut filling = filling_encoder(&mut encoder, alloc, room, limit);
    let outcome = write(steps, &mut filling, alloc);
    *buffer = buffer_of(filling);
    if outcome.is_err() {
        buffer.truncate(before);
        return outcome;
    }
    if buffer.len() != limit {
        return Err(Error::Size);
    }
    Ok(())
}
