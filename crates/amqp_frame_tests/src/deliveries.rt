//! Tests of deliveries that are joined, and of messages that are split.
use amqp_frames::{Deliveries, Delivery, DeliveryError, Joined, Piece, SplitError, split};
use amqp_performatives::Transfer;
use amqp_restricted_types::{DeliveryTag, Handle};
use std::alloc::{AllocError, Global};
use std::test::Fail;

// A transfer of the link 1 with this id, a tag of one byte, and whether more follow.
fn transfer(
    delivery_id: Option<u32>,
    tag: Option<u8>,
    more: bool,
    alloc: Global,
) -> Result<Transfer, AllocError> {
    let delivery_tag = match tag {
        Some(byte) => Some(one_byte(byte, alloc)?),
        None => None,
    };
    Ok(Transfer {
        handle: Handle(1),
        delivery_id,
        delivery_tag,
        message_format: None,
        settled: None,
        more,
        rcv_settle_mode: None,
        state: None,
        resume: false,
        aborted: false,
        batchable: false,
    })
}

fn one_byte(byte: u8, alloc: Global) -> Result<DeliveryTag, AllocError> {
    let mut bytes = Vec::new(alloc);
    bytes.push(byte)?;
    Ok(DeliveryTag::from(bytes))
}

// What is expected of a transfer.
#[derive(Clone, Copy)]
enum Wanted {
    More,
    Whole(u32, &'static [u8]),
    Refused(DeliveryError),
}

// The id and the tag of a transfer, whether more follow, its payload, and what is expected.
type Row = (Option<u32>, Option<u8>, bool, &'static [u8], Wanted);

fn are_joined(deliveries: &mut Deliveries, rows: &[Row], alloc: Global) -> bool {
    for (delivery_id, tag, more, payload, wanted) in rows {
        if !is_joined(
            deliveries,
            transfer(*delivery_id, *tag, *more, alloc),
            payload,
            *wanted,
            alloc,
        ) {
            return false;
        }
    }
    true
}

fn is_joined(
    deliveries: &mut Deliveries,
    sent: Result<Transfer, AllocError>,
    payload: &[u8],
    wanted: Wanted,
    alloc: Global,
) -> bool {
    match sent {
        Ok(sent) => is_wanted(deliveries.join(sent, payload, alloc), wanted),
        Err(_) => false,
    }
}

fn is_wanted(joined: Result<Joined, DeliveryError>, wanted: Wanted) -> bool {
    match (joined, wanted) {
        (Ok(joined), wanted) => is_result(&joined, wanted),
        (Err(error), Wanted::Refused(refused)) => error == refused,
        (Err(_), _) => false,
    }
}

fn is_result(joined: &Joined, wanted: Wanted) -> bool {
    match (joined, wanted) {
        (Joined::More, Wanted::More) => true,
        (Joined::Whole(delivery), Wanted::Whole(id, message)) => {
            is_delivery(delivery, id, message)
        }
        _ => false,
    }
}

fn is_delivery(delivery: &Delivery, id: u32, message: &[u8]) -> bool {
    delivery.delivery_id == id
        && delivery.message_format == 0
        && delivery.message.as_slice() == message
}

// The rows hold of the transfers of a link whose messages have at most so many bytes.
fn check_rows(most: usize, rows: &[Row], alloc: Global) -> Result<(), Fail> {
    let mut deliveries = Deliveries::new(most);
    let holds = are_joined(&mut deliveries, rows, alloc);
    drop(deliveries);
    check(holds)
}

fn check(holds: bool) -> Result<(), Fail> {
    if holds {
        Ok(())
    } else {
        Err(Fail::new(format_args!("another result")))
    }
}

#[test]
fn transfers_are_joined(rt: HostRuntime) -> Result<(), Fail> {
    let rows: &[Row] = &[
        (Some(7), Some(1), true, b"ab", Wanted::More),
        (None, Some(1), true, b"cd", Wanted::More),
        (Some(7), None, false, b"ef", Wanted::Whole(7, b"abcdef")),
        (Some(8), Some(2), false, b"", Wanted::Whole(8, b"")),
    ];
    check_rows(6, rows, rt.alloc())
}

#[test]
fn transfers_are_refused(rt: HostRuntime) -> Result<(), Fail> {
    let rows: &[Row] = &[
        (
            None,
            Some(1),
            true,
            b"ab",
            Wanted::Refused(DeliveryError::NoDeliveryId),
        ),
        (
            Some(7),
            None,
            true,
            b"ab",
            Wanted::Refused(DeliveryError::NoDeliveryTag),
        ),
        (Some(7), Some(1), true, b"ab", Wanted::More),
        (
            Some(8),
            None,
            true,
            b"c",
            Wanted::Refused(DeliveryError::OtherDeliveryId),
        ),
        (
            None,
            Some(2),
            true,
            b"c",
            Wanted::Refused(DeliveryError::OtherDeliveryTag),
        ),
        (
            None,
            None,
            false,
            b"cd",
            Wanted::Refused(DeliveryError::AboveLimit),
        ),
        (None, None, false, b"c", Wanted::Whole(7, b"abc")),
    ];
    check_rows(3, rows, rt.alloc())
}

// With its id and tag, the transfer takes 13 bytes, `00 53 14 c0 08 03 52 01 52 07 a0 01 01`, and `40 40 41` for `more`. A later one takes 8,
// `00 53 14 c0 03 01 52 01`, and `40 40 40 40 41` for `more`. A frame's header takes 8.
fn has_lengths(message: &[u8], max_frame_size: u32, wanted: &[usize], alloc: Global) -> bool {
    match transfer(Some(7), Some(1), true, alloc) {
        Ok(sent) => are_lengths(split(sent, message, max_frame_size, alloc), wanted),
        Err(_) => false,
    }
}

fn are_lengths(pieces: Result<Vec<Piece<'_>>, SplitError>, wanted: &[usize]) -> bool {
    match pieces {
        Ok(pieces) => have_lengths(pieces.as_slice(), wanted),
        Err(_) => false,
    }
}

fn have_lengths(pieces: &[Piece<'_>], wanted: &[usize]) -> bool {
    for (piece, len) in pieces.iter().zip(wanted) {
        if piece.payload.len() != *len {
            return false;
        }
    }
    pieces.len() == wanted.len()
}

fn is_too_small(message: &[u8], max_frame_size: u32, alloc: Global) -> bool {
    match transfer(Some(7), Some(1), true, alloc) {
        Ok(sent) => is_refused(split(sent, message, max_frame_size, alloc)),
        Err(_) => false,
    }
}

fn is_refused(pieces: Result<Vec<Piece<'_>>, SplitError>) -> bool {
    match pieces {
        Ok(_) => false,
        Err(error) => error == SplitError::FrameTooSmall,
    }
}

#[test]
fn messages_are_split(rt: HostRuntime) -> Result<(), Fail> {
    let message = b"abcdefghijklmnopqrstuvwxyz";
    check(has_lengths(message, 512, &[26], rt.alloc()))?;
    check(has_lengths(b"", 512, &[0], rt.alloc()))?;
    check(has_lengths(message, 34, &[10, 16], rt.alloc()))?;
    check(has_lengths(message, 30, &[6, 9, 11], rt.alloc()))?;
    check(is_too_small(b"ab", 22, rt.alloc()))
}
