//! Frames (Part 2, section 2.3; Part 5, section 5.3.1).
ghost use Rattle.std.specs.Prelude.{◌≡◌, ◌*◌, ◌<◌, ◌≤◌, ℕ, List, length, OnOk, IfErr, MatchResult};
ghost use Rattle.amqp_frame_headers.specs.declared.frame_header.FrameHeader.{FrameHeader};
ghost use Rattle.amqp_frame_headers.specs.Frames.{size_of, data_offset_of, type_of, IsOfKind, HasSize, HasDataOffset, HasType, IsFrame, FrameFault, BeginsWithFrame, NeedsMore};
ghost use Rattle.amqp_frames.specs.Steps.{IfFrame, IfNeeds, IsStep};

use amqp_frame_headers::frame_header::{AMQP_TYPE, HEADER_LEN, LEAST_DATA_OFFSET, SASL_TYPE};
use amqp_frame_headers::{FrameError, FrameHeader, FrameKind, MIN_MAX_FRAME_SIZE};

/// The number of bytes of the field SIZE.
const SIZE_LEN: usize = 4;

/// A frame that an input begins with. Its parts are slices of the input.
#[derive(Clone, Copy, Debug, PartialEq, Eq)]
pub struct Frame<'a> {
    /// The first eight bytes.
    pub header: FrameHeader,
    /// The extended header: the bytes from 8 to the body, which peers ignore.
    pub extended: &'a [u8],
    /// The body: the bytes from the data offset to the end of the frame.
    pub body: &'a [u8],
}

/// What an input holds of a frame.
#[derive(Clone, Copy, Debug, PartialEq, Eq)]
pub enum Step<'a> {
    /// So many more bytes are needed, at least 1.
    Needs(usize),
    /// The input begins with this frame, which has `header.size` bytes.
    Frame(Frame<'a>),
}

/// Returns the frame at the start of `input`, or how many more bytes it needs. `max_frame_size` is the greatest number of bytes of a frame
/// that the caller takes: 512 until `open` has set another one (Part 2, section 2.8.19). What follows the frame is ignored.
///
/// With fewer than four bytes, the frame needs 8 bytes in all, since no frame is shorter. Otherwise it needs as many as its size.
///
/// # Errors
///
/// The first rule that the frame breaks, as soon as the field is there: a size below 8 (`SizeBelowHeader`) or above `max_frame_size`
/// (`SizeAboveMaximum`), a data offset below 2 (`DataOffsetBelowHeader`) or past the size (`DataOffsetPastSize`), a type that isn't 0 or 1
/// (`UnknownType`), or a SASL frame of more than 512 bytes (`SaslAboveLimit`). No byte of the body is needed for an error.
pub fn next_frame(input: &[u8], max_frame_size: u32) -> Result<Step<'_>, FrameError>
    // The frame that is returned begins the input, and any frame that begins the input is returned.
    ensures frame { IfFrame result (λ f. BeginsWithFrame max_frame_size input.now f.header f.extended.now f.body.now) }
    ensures found { (header : FrameHeader) (extended body : List ℕ) → BeginsWithFrame max_frame_size input.now header extended body
        → IsStep result header extended body }

    ensures needs { IfNeeds result (NeedsMore max_frame_size input.now) }
    ensures refused { IfErr result (FrameFault max_frame_size input.now) }
{
    if input.len() < SIZE_LEN {
        return Ok(Step::Needs(HEADER_LEN - input.len()));
    }
    let size = read_size(input, max_frame_size)?;
    check_data_offset(input, size)?;
    check_type(input, size)?;
    let len = size as usize;
    if input.len() < len {
        return Ok(Step::Needs(len - input.len()));
    }
    Ok(Step::Frame(split(&input[..len], size)))
}

// SIZE, if it breaks no rule.
#[tactic(auto, unfolding(amqp_frame_headers::specs::Frames::size_of))]
fn read_size(input: &[u8], max_frame_size: u32) -> Result<u32, FrameError>
    requires { 4 ≤ length input.now }
    ensures { MatchResult result (λ size. (size ≡ size_of input.now) × HasSize max_frame_size input.now)
        (FrameFault max_frame_size input.now) }
{
    let size = u32::from_be_bytes([input[0], input[1], input[2], input[3]]);
    if (size as usize) < HEADER_LEN {
        return Err(FrameError::SizeBelowHeader);
    }
    if size > max_frame_size {
        return Err(FrameError::SizeAboveMaximum);
    }
    Ok(size)
}

// Tests the rules of DOFF, if it is there.
fn check_data_offset(input: &[u8], size: u32) -> Result<(), FrameError>
    requires { size ≡ size_of input.now }
    ensures ok { OnOk result ((max : ℕ) → HasSize max input.now → 5 ≤ length input.now → HasDataOffset max input.now) }
    ensures err { IfErr result (λ e. (max : ℕ) → HasSize max input.now → FrameFault max input.now e) }
{
    match input.get(4) {
        Some(data_offset) if *data_offset < LEAST_DATA_OFFSET => {
            Err(FrameError::DataOffsetBelowHeader)
        }
        Some(data_offset) if 4 * u32::from(*data_offset) > size => {
            Err(FrameError::DataOffsetPastSize)
        }
        _ => Ok(()),
    }
}

// Tests the rules of TYPE, if it is there.
fn check_type(input: &[u8], size: u32) -> Result<(), FrameError>
    requires { size ≡ size_of input.now }
    ensures ok { OnOk result ((max : ℕ) → (5 ≤ length input.now → HasDataOffset max input.now)
        → 6 ≤ length input.now → HasType max input.now) }
    ensures err { IfErr result (λ e. (max : ℕ) → (5 ≤ length input.now → HasDataOffset max input.now)
        → FrameFault max input.now e) }
{
    match input.get(5) {
        Some(code) if *code > SASL_TYPE => Err(FrameError::UnknownType(*code)),
        Some(code) if *code == SASL_TYPE && size > MIN_MAX_FRAME_SIZE => {
            Err(FrameError::SaslAboveLimit)
        }
        _ => Ok(()),
    }
}

// The frame that these bytes are.
fn split(bytes: &[u8], size: u32) -> Frame<'_>
    requires size { size ≡ size_of bytes.now }
    requires whole { length bytes.now ≡ size }
    requires sound { (max : ℕ) × HasType max bytes.now }
    ensures { (max : ℕ) → HasType max bytes.now → IsFrame max bytes.now result.header result.extended.now result.body.now }
{
    let data_offset = bytes[4];
    let body_start = 4 * usize::from(data_offset);
    Frame {
        header: FrameHeader {
            size,
            data_offset,
            kind: read_kind(bytes),
        },
        extended: &bytes[HEADER_LEN..body_start],
        body: &bytes[body_start..],
    }
}

// TYPE, and for an AMQP frame the channel.
#[tactic(auto, unfolding(amqp_frame_headers::specs::Frames::channel_of))]
fn read_kind(bytes: &[u8]) -> FrameKind
    requires there { 8 ≤ length bytes.now }
    requires known { type_of bytes.now ≤ 1 }
    ensures { IsOfKind bytes.now result }
{
    if bytes[5] == AMQP_TYPE {
        let channel = u16::from_be_bytes([bytes[6], bytes[7]]);
        FrameKind::Amqp { channel }
    } else {
        FrameKind::Sasl
    }
}
