//! Messages that are read from readers, and strictly (Part 3, section 3.2).
use amqp_batches::Batch;
use amqp_codec::Error;
use amqp_messages::{
    DecodeIntoMessage, Message, canonical_text_strict, canonical_text_strict_within,
    decode_message_strict, decode_message_strict_within,
};
use amqp_no_memory_calls::{check, is_text};
use amqp_read_write::{Limits, canonical_text_within};
use amqp_sections::Data;
use std::alloc::Global;

/// A header, two sections of data and a footer, in their canonical text.
const MESSAGE: &[u8] =
    b"\x00\x53\x70\x45\x00\x53\x75\xa0\x01a\x00\x53\x75\xa0\x01b\x00\x53\x78\xc1\x01\x00";

/// Makes all these calls, and returns whether every one went as it must.
pub(crate) fn check_all(rt: &HostRuntime) -> Result<bool, anyhow::Error> {
    let mut well = check(rt, "message", "decode_message_from_reader", is_decoded)?;
    well &= check(rt, "message", "decode_message_strict", is_decoded_strictly)?;
    well &= check(
        rt,
        "message",
        "decode_message_strict_within",
        is_decoded_strictly_within,
    )?;
    well &= check(
        rt,
        "message",
        "canonical_text_strict",
        is_rewritten_strictly,
    )?;
    well &= check(
        rt,
        "message",
        "canonical_text_strict_within",
        is_rewritten_strictly_within,
    )?;
    well &= check(rt, "message", "canonical_text_within", is_rewritten_within)?;
    Ok(well)
}

fn is_decoded(alloc: Global) -> Result<bool, Error> {
    let mut reader = MESSAGE;
    let message = Batch::<Data>::decode_message_from_reader(&mut reader, alloc);
    is_text(message, MESSAGE, alloc)
}

fn is_decoded_strictly(alloc: Global) -> Result<bool, Error> {
    let mut reader = MESSAGE;
    let message: Result<Message<Batch<Data>>, Error> = decode_message_strict(&mut reader, alloc);
    is_text(message, MESSAGE, alloc)
}

fn is_decoded_strictly_within(alloc: Global) -> Result<bool, Error> {
    let mut reader = MESSAGE;
    let limits = Limits::greatest();
    let message: Result<Message<Batch<Data>>, Error> = decode_message_strict_within(
        &mut reader,
        &limits,
        alloc,
    );
    is_text(message, MESSAGE, alloc)
}

fn is_rewritten_strictly(alloc: Global) -> Result<bool, Error> {
    let text = canonical_text_strict::<Batch<Data>>(MESSAGE, alloc)?;
    Ok(text.as_slice() == MESSAGE)
}

fn is_rewritten_strictly_within(alloc: Global) -> Result<bool, Error> {
    let limits = Limits::for_peers(MESSAGE.len() as u64);
    let text = canonical_text_strict_within::<Batch<Data>>(MESSAGE, &limits, alloc)?;
    Ok(text.as_slice() == MESSAGE)
}

fn is_rewritten_within(alloc: Global) -> Result<bool, Error> {
    let limits = Limits::for_peers(MESSAGE.len() as u64);
    let (text, len) = canonical_text_within::<Message<Batch<Data>>>(MESSAGE, &limits, alloc)?;
    Ok(text.as_slice() == MESSAGE && len == MESSAGE.len())
}
