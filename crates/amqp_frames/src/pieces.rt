//! A message, split into the payloads of transfers (Part 2, sections 2.6.14 and 2.7.5).
ghost use Rattle.std.specs.Prelude.{◌≡◌, ◌+◌, ◌<◌, ◌≤◌, ◌++◌, [], ◌∷◌, ℕ, List, length, map, true, false, OnOk, IfOk, IfErr, IfSome, None, MatchOption};
ghost use Rattle.std.specs.List.{All};
ghost use Rattle.amqp_frames.specs.Splitting.{later_of, with_more, transfers_of, transfer_text};
ghost use Rattle.amqp_frames.specs.Splitting.{payloads_of, transfer_terms, FitsFrame, PassesOne, AreFilled, SplitFault, IsSplit, IsUnwritten, PartFault};
ghost use Rattle.amqp_performatives.specs.declared.transfer.Transfer.{Transfer};

use crate::SplitError;
use amqp_frame_headers::frame_header::HEADER_LEN;
use amqp_performatives::Transfer;
use amqp_read_write::encoded_len;
use amqp_restricted_types::Handle;
use std::alloc::{AllocError, Global};
use std::mem::replace;

/// A part of a message, with the transfer that carries it.
#[derive(Debug, PartialEq, Eq, Drop)]
pub struct Piece<'a> {
    /// The transfer.
    pub transfer: Transfer,
    /// The bytes that follow it in its frame.
    pub payload: &'a [u8],
}

/// Splits a message into the payloads of transfers, so that each frame has at most `max_frame_size` bytes. The first transfer is
/// `transfer`. Each later one has its handle and its `settled`, and omits the rest. `more` is true in all but the last, whatever it is in
/// `transfer`. The frames of all but the last are full. A message that fits one frame has one transfer.
///
/// # Errors
///
/// `FrameTooSmall` if the message doesn't fit one frame, and the first of several transfers leaves no byte for its payload; `Value` if a
/// transfer can't be written, or an allocation fails.
pub fn split<'a>(
    transfer: Transfer,
    message: &'a [u8],
    max_frame_size: u32,
    alloc: Global,
) -> Result<Vec<Piece<'a>>, SplitError>
    ensures message { IfOk result (λ pieces. payloads_of pieces.items ≡ message.now) }
    ensures fits { IfOk result (λ pieces. All (FitsFrame max_frame_size) pieces.items) }
    ensures transfers { IfOk result (λ pieces. (n : ℕ) × (map (λ p. p.transfer) pieces.items ≡ transfers_of transfer n)) }
    ensures filled { IfOk result (λ pieces. AreFilled max_frame_size message.now pieces.items) }
    ensures refused { IfErr result (SplitFault transfer message.now max_frame_size) }
{
    let mut pieces = Vec::new(alloc);
    let mut next = transfer;
    let filled = fill(&mut pieces, &mut next, message, max_frame_size, alloc);
    drop(next);
    match filled {
        Ok(()) => Ok(pieces),
        Err(error) => Err(error),
    }
}

// Takes pieces of the message, until the last one. `next` is the transfer of the piece that comes next.
fn fill<'a>(
    pieces: &mut Vec<Piece<'a>>,
    next: &mut Transfer,
    message: &'a [u8],
    max_frame_size: u32,
    alloc: Global,
) -> Result<(), SplitError>
    requires { pieces.old.items ≡ [] }
    ensures ok { OnOk result (IsSplit next.old message.now max_frame_size pieces.new.items) }
    ensures err { IfErr result (SplitFault next.old message.now max_frame_size) }
{
    let mut rest = message;
    'parts: while let Some(len) = part_len(next, rest.len(), max_frame_size, alloc)? {
        let (payload, after) = rest.split_at(len);
        push_piece(pieces, next, payload)?;
        rest = after;
    }
    push_piece(pieces, next, rest)?;
    Ok(())
}

// Sets `more` of the next transfer. Returns how many bytes of the payload it carries if others follow it, and `None` if it carries them all.
fn part_len(
    next: &mut Transfer,
    left: usize,
    max_frame_size: u32,
    alloc: Global,
) -> Result<Option<usize>, SplitError>
    ensures last { IfOk result (λ len. len ≡ None → (next.new ≡ with_more false next.old)
        × (8 + length (transfer_text next.new) + left ≤ max_frame_size)) }
    ensures part { IfOk result (λ len. IfSome len (λ n. (next.new ≡ with_more true next.old) × (0 < n) × (n < left)
        × (8 + length (transfer_text next.new) + n ≡ max_frame_size) × PassesOne max_frame_size next.old left)) }
    ensures err { IfErr result (PartFault next.old left max_frame_size) }
{
    next.more = false;
    if fits_one(next, left, max_frame_size, alloc)? {
        return Ok(None);
    }
    next.more = true;
    match room_after(next, max_frame_size, alloc)? {
        Some(room) if room > 0 => Ok(Some(room)),
        _ => Err(SplitError::FrameTooSmall),
    }
}

// Whether a frame with this transfer has room for so many bytes of payload.
fn fits_one(
    transfer: &Transfer,
    left: usize,
    max_frame_size: u32,
    alloc: Global,
) -> Result<bool, SplitError>
    ensures fits { IfOk result (λ fits. fits ≡ true → 8 + length (transfer_text transfer.now) + left ≤ max_frame_size) }
    ensures passes { IfOk result (λ fits. fits ≡ false → max_frame_size < 8 + length (transfer_text transfer.now) + left) }
    ensures err { IfErr result (λ e. IsUnwritten (transfer_terms transfer.now) e) }
{
    match room_after(transfer, max_frame_size, alloc)? {
        Some(room) => Ok(left <= room),
        None => Ok(false),
    }
}

// How many bytes of payload a frame with this transfer has room for, if it has room for the transfer.
fn room_after(
    transfer: &Transfer,
    max_frame_size: u32,
    alloc: Global,
) -> Result<Option<usize>, SplitError>
    ensures ok { IfOk result (λ room. MatchOption room (max_frame_size < 8 + length (transfer_text transfer.now))
        (λ n. 8 + length (transfer_text transfer.now) + n ≡ max_frame_size)) }
    ensures err { IfErr result (λ e. IsUnwritten (transfer_terms transfer.now) e) }
{
    let len = match encoded_len(transfer, alloc) {
        Ok(len) => len,
        Err(error) => return Err(SplitError::Value(error)),
    };
    match (max_frame_size as usize).checked_sub(HEADER_LEN) {
        Some(most) => Ok(most.checked_sub(len)),
        None => Ok(None),
    }
}

// Adds a piece with the next transfer, which is then a later one.
fn push_piece<'a>(
    pieces: &mut Vec<Piece<'a>>,
    next: &mut Transfer,
    payload: &'a [u8],
) -> Result<(), AllocError>
    ensures pushed { OnOk result ((p : Piece) × (pieces.new.items ≡ pieces.old.items ++ p ∷ []) × (p.transfer ≡ next.old)
        × (p.payload.now ≡ payload.now)) }
    ensures next { OnOk result (next.new ≡ later_of next.old) }
{
    let later = later_of(next);
    let transfer = replace(next, later);
    pieces.push(Piece { transfer, payload })?;
    Ok(())
}

// A later transfer of the same delivery.
fn later_of(transfer: &Transfer) -> Transfer
    ensures { result ≡ later_of transfer.now }
{
    Transfer {
        handle: Handle(transfer.handle.0),
        delivery_id: None,
        delivery_tag: None,
        message_format: None,
        settled: transfer.settled,
        more: false,
        rcv_settle_mode: None,
        state: None,
        resume: false,
        aborted: false,
        batchable: false,
    }
}
