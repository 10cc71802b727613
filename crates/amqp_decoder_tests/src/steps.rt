//! The calls of a decoder, and what each returns, as steps.
use amqp_decoder::{Decoder, decoder_of};
use amqp_wire::{ByteSource, Error};
use std::alloc::Global;
use std::test::Fail;

/// One call of a decoder, and what it returns.
#[derive(Clone, Copy)]
pub(crate) enum Step {
    Null,
    Bool(bool),
    Ubyte(u8),
    Ushort(u16),
    Uint(u32),
    Ulong(u64),
    Byte(i8),
    Short(i16),
    Int(i32),
    Long(i64),
    Dec32([u8; 4]),
    Dec64([u8; 8]),
    Dec128([u8; 16]),
    Char(char),
    Timestamp(i64),
    Uuid([u8; 16]),
    Term,
    BeginList(u32),
    EndList,
    EndMap,
    BeginArray(u32),
    /// A value that this code describes.
    BeginDescribed(u64),
    EndDescribed,
    PeekCode(u8),
    PeekSection(Option<u8>),
    AtEnd(bool),
    Check,
}

// Whether this value is read.
fn is_value<T: PartialEq + Drop>(read: Result<T, Error>, value: T) -> Result<bool, Error> {
    let found = read?;
    Ok(found == value)
}

// Whether the step's number is read.
fn is_number<R: ByteSource>(decoder: &mut Decoder<R>, step: Step) -> Result<bool, Error> {
    match step {
        Step::Ubyte(value) => is_value(decoder.read_ubyte(), value),
        Step::Ushort(value) => is_value(decoder.read_ushort(), value),
        Step::Uint(value) => is_value(decoder.read_uint(), value),
        Step::Ulong(value) => is_value(decoder.read_ulong(), value),
        Step::Byte(value) => is_value(decoder.read_byte(), value),
        Step::Short(value) => is_value(decoder.read_short(), value),
        Step::Int(value) => is_value(decoder.read_int(), value),
        Step::Long(value) => is_value(decoder.read_long(), value),
        Step::Timestamp(value) => is_value(decoder.read_timestamp(), value),
        _ => Ok(false),
    }
}

// Whether the step's other primitive is read.
fn is_primitive<R: ByteSource>(decoder: &mut Decoder<R>, step: Step) -> Result<bool, Error> {
    match step {
        Step::Null => decoder.read_null().map(|()| true),
        Step::Bool(value) => is_value(decoder.read_bool(), value),
        Step::Dec32(value) => is_value(decoder.read_dec32(), value),
        Step::Dec64(value) => is_value(decoder.read_dec64(), value),
        Step::Dec128(value) => is_value(decoder.read_dec128(), value),
        Step::Char(value) => is_value(decoder.read_char(), value),
        Step::Uuid(value) => is_value(decoder.read_uuid(), value),
        _ => is_number(decoder, step),
    }
}

// Whether the step is answered so.
fn is_answered<R: ByteSource>(
    decoder: &mut Decoder<R>,
    step: Step,
    alloc: Global,
) -> Result<bool, Error> {
    match step {
        Step::Term => Ok(!decoder.read_term(alloc)?.is_empty()),
        Step::BeginList(count) => is_value(decoder.begin_list(), count),
        Step::EndList => decoder.end_list().map(|()| true),
        Step::EndMap => decoder.end_map().map(|()| true),
        Step::BeginArray(count) => is_value(decoder.begin_array(alloc), count),
        Step::BeginDescribed(code) => is_value(decoder.begin_one_of(&[(code, "of no name")]), 0),
        Step::EndDescribed => decoder.end_described().map(|()| true),
        Step::PeekCode(code) => is_value(decoder.peek_code(), code),
        Step::PeekSection(section) => is_value(decoder.peek_section(), section),
        Step::AtEnd(ends) => is_value(decoder.at_end(), ends),
        Step::Check => decoder.check().map(|()| true),
        _ => is_primitive(decoder, step),
    }
}

/// Checks that over these bytes the steps return so in turn, and that each of the others is then refused with this error.
pub(crate) fn check(
    digits: &str,
    steps: &[Step],
    refused: &[Step],
    error: Error,
    alloc: Global,
) -> Result<(), Fail> {
    let input = hex::decode(alloc, digits)?;
    let mut decoder = decoder_of(input.as_slice(), alloc);
    for (index, step) in steps.iter().enumerate() {
        if is_answered(&mut decoder, *step, alloc) != Ok(true) {
            return Err(Fail::new(format_args!("step {index} over {digits}")));
        }
    }
    for (index, step) in refused.iter().enumerate() {
        if is_answered(&mut decoder, *step, alloc) != Err(error) {
            return Err(Fail::new(format_args!("refusal {index} over {digits}")));
        }
    }
    Ok(())
}
