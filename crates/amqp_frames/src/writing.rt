//! Frames that are written whole (Part 2, section 2.3; Part 5, section 5.3.1).
ghost use Rattle.std.specs.Prelude.{◌≡◌, ◌+◌, ◌≤◌, ◌⊎◌, ◌++◌, [], length, vec_len, Ok, Err, IfOk, IfErr, OnOk, OnErr};
ghost use Rattle.std.specs.Vec.{vec_capacity};
ghost use Rattle.amqp_wire.specs.declared.error.Error.TheVariants.{Memory};
ghost use Rattle.amqp_encoder.specs.Passes.{BeginsMeasuring};
ghost use Rattle.amqp_codec.specs.Spelled.{written, IsWritable};
ghost use Rattle.amqp_attach.specs.Tables.{performative as performative_type};
ghost use Rattle.amqp_frame_headers.specs.Tables.{sasl_frame};
ghost use Rattle.amqp_frame_headers.specs.Frames.{frame_header_bytes, greatest_size, too_large};
ghost use Rattle.amqp_frames.specs.Writing.{frame_text, amqp_body, IsMeasuredBy, IsUnwritable, WriteFault, AmqpWriteFault, SaslWriteFault};

use crate::WriteError;
use amqp_attach::Performative;
use amqp_codec::{DeserializeTerm, Encoder, Error, Serialize};
use amqp_encoder::{Measure, buffer_of, filling_encoder, measured_len, measuring_encoder};
use amqp_frame_headers::frame_header::{HEADER_LEN, LEAST_DATA_OFFSET};
use amqp_frame_headers::{FrameHeader, FrameKind, MIN_MAX_FRAME_SIZE, SaslFrame};
use amqp_read_write::laws::one_term_is_written;
use std::alloc::Global;
use std::mem::replace;

/// Appends an AMQP frame to the buffer, and returns its length in bytes. The frame has the canonical text of the performative, the payload
/// after it, and no extended header. Its bytes are reserved once and exactly, before any of them is written.
///
/// # Errors
///
/// `Frame(SizeAboveMaximum)` if the frame would have more than `max_frame_size` bytes. Otherwise `Value`, with the error of
/// `amqp_read_write::to_vec` for the performative. The buffer's content is then unchanged.
pub fn write_frame(
    buffer: &mut Vec<u8>,
    channel: u16,
    performative: &Performative,
    payload: &[u8],
    max_frame_size: u32,
    alloc: Global,
) -> Result<usize, WriteError>
    ensures text { OnOk result (buffer.new.items ≡ buffer.old.items
        ++ frame_text (FrameKind.Amqp channel) (amqp_body performative.now payload.now)) }
    ensures len { IfOk result (λ n. n ≡ 8 + length (amqp_body performative.now payload.now)) }
    ensures fits { IfOk result (λ n. n ≤ max_frame_size) }
    ensures is_value { performative_type.is_value performative.now }
    ensures writable { OnOk result (IsWritable performative_type performative.now) }
    ensures refused { IfErr result (AmqpWriteFault max_frame_size performative.now payload.now) }
    ensures kept { OnErr result (buffer.new.items ≡ buffer.old.items) }
{
    let kind = FrameKind::Amqp { channel };
    append_frame(buffer, kind, performative, payload, max_frame_size, alloc)
}

/// Appends a SASL frame to the buffer, and returns its length in bytes. The body is the canonical text of the value, and there is no
/// extended header. Its bytes are reserved once and exactly, before any of them is written.
///
/// # Errors
///
/// `Frame(SaslAboveLimit)` if the frame would have more than 512 bytes. Otherwise `Value`, with the error of `amqp_read_write::to_vec` for
/// the value. The buffer's content is then unchanged.
pub fn write_sasl_frame(
    buffer: &mut Vec<u8>,
    value: &SaslFrame,
    alloc: Global,
) -> Result<usize, WriteError>
    ensures text { OnOk result (buffer.new.items ≡ buffer.old.items ++ frame_text FrameKind.Sasl (written sasl_frame value.now)) }
    ensures len { IfOk result (λ n. n ≡ 8 + length (written sasl_frame value.now)) }
    ensures fits { IfOk result (λ n. n ≤ 512) }
    ensures is_value { sasl_frame.is_value value.now }
    ensures writable { OnOk result (IsWritable sasl_frame value.now) }
    ensures refused { IfErr result (SaslWriteFault value.now) }
    ensures kept { OnErr result (buffer.new.items ≡ buffer.old.items) }
{
    append_frame(
        buffer,
        FrameKind::Sasl,
        value,
        &[],
        MIN_MAX_FRAME_SIZE,
        alloc,
    )
}

/// Appends an AMQP frame with an empty body to the buffer, and returns its length, which is 8. Such a frame keeps the connection alive
/// (Part 2, section 2.4.5).
///
/// # Errors
///
/// `Value(Memory)` if an allocation failed. The buffer's content is then unchanged.
pub fn write_empty_frame(buffer: &mut Vec<u8>, channel: u16) -> Result<usize, WriteError>
    ensures text { OnOk result (buffer.new.items ≡ buffer.old.items ++ frame_text (FrameKind.Amqp channel) []) }
    ensures len { IfOk result (λ n. n ≡ 8) }
    ensures refused { IfErr result (λ e. e ≡ WriteError.Value Memory) }
    ensures kept { OnErr result (buffer.new.items ≡ buffer.old.items) }
{
    let header = FrameHeader {
        size: HEADER_LEN as u32,
        data_offset: LEAST_DATA_OFFSET,
        kind: FrameKind::Amqp { channel },
    };
    append_header(buffer, header, HEADER_LEN)?;
    Ok(HEADER_LEN)
}

// The length of the value's canonical text, whose sizes the encoder keeps.
#[inline(always)]
fn measure<T: DeserializeTerm>(value: &T, encoder: &mut Encoder<Measure>) -> Result<usize, Error>
    requires { BeginsMeasuring encoder.old }
    ensures len { IfOk result (λ len. len ≡ length (written T.term value.now)) }
    ensures sizes { IfOk result (λ len. IsMeasuredBy (T.writing.canons value.now) len encoder.new) }
    ensures is_value { T.writing.is_value value.now }
    ensures writable { OnOk result (IsWritable T.term value.now) }
    ensures refused { IfErr result (IsUnwritable T.term value.now) }
{
    one_term_is_written::<T>();
    value.in_type();
    value.serialize(encoder)?;
    measured_len(encoder)
}

// Appends a frame of this kind, whose body is the canonical text of the value and the payload, and returns the frame's length. The encoder
// is a local of this function alone: it is large, and would be copied if it were passed on.
fn append_frame<T: DeserializeTerm>(
    buffer: &mut Vec<u8>,
    kind: FrameKind,
    value: &T,
    payload: &[u8],
    max_frame_size: u32,
    alloc: Global,
) -> Result<usize, WriteError>
    ensures text { OnOk result (buffer.new.items ≡ buffer.old.items ++ frame_text kind (written T.term value.now ++ payload.now)) }
    ensures len { IfOk result (λ n. n ≡ 8 + length (written T.term value.now ++ payload.now)) }
    ensures fits { IfOk result (λ n. n ≤ greatest_size kind max_frame_size) }
    ensures is_value { T.writing.is_value value.now }
    ensures writable { OnOk result (IsWritable T.term value.now) }
    ensures refused { IfErr result (WriteFault T.term (too_large kind) (greatest_size kind max_frame_size) value.now
        (written T.term value.now ++ payload.now)) }
    ensures kept { OnErr result (buffer.new.items ≡ buffer.old.items) }
{
    one_term_is_written::<T>();
    let mut encoder = measuring_encoder(alloc);
    let text_len = measure(value, &mut encoder)?;
    let header = kind.header(text_len.saturating_add(payload.len()), max_frame_size)?;
    let before = buffer.len();
    let size = header.size as usize;
    append_header(buffer, header, size)?;
    let limit = buffer.len() + text_len;
    let room = replace(buffer, Vec::new(alloc));
    let mut filling = filling_encoder(&mut encoder, alloc, room, limit);
    let outcome = value.serialize(&mut filling);
    *buffer = buffer_of(filling);
    match append_payload(buffer, payload, outcome) {
        Ok(()) => Ok(size),
        Err(error) => {
            buffer.truncate(before);
            Err(WriteError::Value(error))
        }
    }
}

// Reserves the bytes of a frame of this size, and appends its header.
fn append_header(buffer: &mut Vec<u8>, header: FrameHeader, size: usize) -> Result<(), Error>
    ensures text { OnOk result (buffer.new.items ≡ buffer.old.items ++ frame_header_bytes header) }
    ensures room { OnOk result (vec_len buffer.old + size ≤ vec_capacity buffer.new) }
    ensures refused { IfErr result (λ e. e ≡ Memory) }
    ensures kept { OnErr result (buffer.new.items ≡ buffer.old.items) }
{
    buffer.reserve_exact(size)?;
    buffer.extend_from_slice(&header.to_bytes())?;
    Ok(())
}

// Appends the payload, if what stands before it was written.
fn append_payload(
    buffer: &mut Vec<u8>,
    payload: &[u8],
    outcome: Result<(), Error>,
) -> Result<(), Error>
    ensures text { OnOk result (buffer.new.items ≡ buffer.old.items ++ payload.now) }
    ensures written { OnOk result (outcome ≡ Ok tt) }
    ensures refused { IfErr result (λ e. (e ≡ Memory) ⊎ (outcome ≡ Err e)) }
    ensures kept { OnErr result (buffer.new.items ≡ buffer.old.items) }
{
    outcome?;
    buffer.extend_from_slice(payload)?;
    Ok(())
}
