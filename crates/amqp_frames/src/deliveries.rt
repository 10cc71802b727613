//! Transfers of one link, joined to whole deliveries (Part 2, sections 2.6.14 and 2.7.5).
ghost use Rattle.std.specs.Prelude.{◌≡◌, ◌+◌, ◌<◌, ◌≤◌, ◌⊎◌, ◌++◌, List, ℕ, length, Option, None, Some, Ok, OnOk, OnErr, IfOk, IfErr, IfSome, true, false, MatchResult};
ghost use Rattle.amqp_frames.specs.Deliveries.{Begins, Continues, Joins, MayCome, MayBegin, MayContinue, DeliveryFault, length_of, later_flag, later_state, has_ended};
ghost use Rattle.amqp_frames.specs.Joined.{IsAnswer, HasJoined, AreKept, IsKept};

use crate::DeliveryError;
use amqp_delivery::DeliveryState;
use amqp_performatives::Transfer;
use amqp_restricted_types::{DeliveryNumber, DeliveryTag, MessageFormat, ReceiverSettleMode};
use std::alloc::Global;
use std::mem::swap;

/// A delivery, or what has come of one.
#[derive(Debug, PartialEq, Eq, Drop)]
pub struct Delivery {
    /// The delivery-id of its first transfer.
    pub delivery_id: DeliveryNumber,
    /// The delivery-tag of its first transfer.
    pub delivery_tag: DeliveryTag,
    /// The message-format of its first transfer, or 0 if that omits it.
    pub message_format: MessageFormat,
    /// Whether a transfer of it says that it is settled.
    pub settled: bool,
    /// The rcv-settle-mode of its first transfer.
    pub rcv_settle_mode: Option<ReceiverSettleMode>,
    /// The last state that a transfer of it has, up to the first terminal one.
    pub state: Option<DeliveryState>,
    /// Whether its first transfer resumes it.
    pub resume: bool,
    /// Whether its first transfer says that it is batchable.
    pub batchable: bool,
    /// The payloads of its transfers, joined: the message, if the delivery is whole.
    pub message: Vec<u8>,
}

/// What a transfer has made of its delivery.
#[derive(Debug, PartialEq, Eq, Drop)]
pub enum Joined {
    /// More transfers of it follow.
    More,
    /// It is whole.
    Whole(Delivery),
    /// It is aborted: what had come of it is dropped, and it counts as settled.
    Aborted,
}

/// Joins the transfers of one link, in one direction, to deliveries. A link's transfers aren't interleaved, so at most one delivery is open.
/// The caller has a value of this type for each link, and finds it by the handle of a transfer.
#[derive(Debug, PartialEq, Eq, Drop)]
pub struct Deliveries {
    /// The most bytes that the message of a delivery may have.
    pub most: usize,
    /// The delivery of which more transfers follow, if there is one.
    pub unfinished: Option<Delivery>,
}

impl Deliveries {
    /// Returns a joiner of deliveries whose messages have at most `most` bytes. None is open.
    pub fn new(most: usize) -> Deliveries
        ensures limit { result.most ≡ most }
        ensures none { result.unfinished ≡ None }
    {
        Deliveries {
            most,
            unfinished: None,
        }
    }

    /// Joins a transfer and its payload to the delivery that is open, or begins one. An aborted transfer ends its delivery, whatever its
    /// payload and `more` are.
    ///
    /// # Errors
    ///
    /// `NoDeliveryId` or `NoDeliveryTag` if no delivery is open and the transfer lacks it; `OtherDeliveryId`, `OtherDeliveryTag` or
    /// `OtherMessageFormat` if one is open and the transfer has another one; `AboveLimit` if the message would have more than `most` bytes;
    /// `Memory` if an allocation fails. After an error the open delivery is as it was.
    pub fn join(
        &mut self,
        transfer: Transfer,
        payload: &[u8],
        alloc: Global,
    ) -> Result<Joined, DeliveryError>
        ensures limit { self.new.most ≡ self.old.most }
        ensures allowed { OnOk result (MayCome self.old.unfinished transfer) }
        ensures joined { IfOk result (λ joined. IsAnswer self.old.unfinished transfer payload.now joined self.new.unfinished) }
        ensures within { OnOk result (transfer.aborted ≡ false → length_of self.old.unfinished + length payload.now ≤ self.old.most) }
        ensures refused { IfErr result (DeliveryFault self.old.most self.old.unfinished transfer payload.now) }
        ensures kept { OnErr result (AreKept self.old.unfinished self.new.unfinished) }
    {
        let mut transfer = transfer;
        let joined = self.join_parts(&mut transfer, payload, alloc);
        drop(transfer);
        joined
    }

    // The same, with what is kept of a transfer taken out of it.
    fn join_parts(
        &mut self,
        transfer: &mut Transfer,
        payload: &[u8],
        alloc: Global,
    ) -> Result<Joined, DeliveryError>
        ensures limit { self.new.most ≡ self.old.most }
        ensures allowed { OnOk result (MayCome self.old.unfinished transfer.old) }
        ensures joined { IfOk result (λ joined. IsAnswer self.old.unfinished transfer.old payload.now joined self.new.unfinished) }
        ensures within { OnOk result (transfer.old.aborted ≡ false → length_of self.old.unfinished + length payload.now ≤ self.old.most) }
        ensures refused { IfErr result (DeliveryFault self.old.most self.old.unfinished transfer.old payload.now) }
        ensures kept { OnErr result (AreKept self.old.unfinished self.new.unfinished) }
    {
        self.check(transfer)?;
        if transfer.aborted {
            drop(self.unfinished.take());
            return Ok(Joined::Aborted);
        }
        if !self.has_room(payload.len()) {
            return Err(DeliveryError::AboveLimit);
        }
        self.add(transfer, payload, alloc)?;
        if transfer.more {
            return Ok(Joined::More);
        }
        match self.unfinished.take() {
            Some(delivery) => Ok(Joined::Whole(delivery)),
            None => unreachable!(),
        }
    }

    // Tests whether the transfer may come.
    fn check(&self, transfer: &Transfer) -> Result<(), DeliveryError>
        ensures ok { OnOk result (MayCome self.now.unfinished transfer.now) }
        ensures err { IfErr result (λ e. (most : ℕ) (payload : List ℕ) → DeliveryFault most self.now.unfinished transfer.now payload e) }
    {
        match &self.unfinished {
            Some(delivery) => delivery.check(transfer),
            None => check_first(transfer),
        }
    }

    // Whether the message may have so many more bytes.
    fn has_room(&self, payload_len: usize) -> bool
        ensures room { result ≡ true → length_of self.now.unfinished + payload_len ≤ self.now.most }
        ensures full { result ≡ false → self.now.most < length_of self.now.unfinished + payload_len }
    {
        let len = match &self.unfinished {
            Some(delivery) => delivery.message.len(),
            None => 0,
        };
        match self.most.checked_sub(len) {
            Some(room) => payload_len <= room,
            None => false,
        }
    }

    // Adds a transfer that may come. Its tag and its state are taken out of it.
    fn add(
        &mut self,
        transfer: &mut Transfer,
        payload: &[u8],
        alloc: Global,
    ) -> Result<(), DeliveryError>
        requires { MayCome self.old.unfinished transfer.old }
        ensures limit { self.new.most ≡ self.old.most }
        ensures rest { transfer.new.more ≡ transfer.old.more }
        ensures ok { OnOk result (HasJoined self.old.unfinished transfer.old payload.now self.new.unfinished) }
        ensures err { IfErr result (λ e. (e ≡ DeliveryError.Memory) × AreKept self.old.unfinished self.new.unfinished) }
    {
        match &mut self.unfinished {
            Some(delivery) => delivery.add(transfer, payload),
            None => {
                let delivery = Delivery::begin(transfer, payload, alloc)?;
                drop(self.unfinished.replace(delivery));
                Ok(())
            }
        }
    }
}

impl Delivery {
    // Begins a delivery with its first transfer.
    fn begin(
        transfer: &mut Transfer,
        payload: &[u8],
        alloc: Global,
    ) -> Result<Delivery, DeliveryError>
        requires { MayBegin transfer.old }
        ensures rest { transfer.new.more ≡ transfer.old.more }
        ensures ok { IfOk result (Begins transfer.old payload.now) }
        ensures err { IfErr result (λ e. e ≡ DeliveryError.Memory) }
    {
        let mut message = Vec::new(alloc);
        message.extend_from_slice(payload)?;
        match (transfer.delivery_id, transfer.delivery_tag.take()) {
            (Some(delivery_id), Some(delivery_tag)) => Ok(Delivery {
                delivery_id,
                delivery_tag,
                message_format: transfer.message_format.unwrap_or(0),
                settled: transfer.settled.unwrap_or(false),
                rcv_settle_mode: transfer.rcv_settle_mode.take(),
                state: transfer.state.take(),
                resume: transfer.resume,
                batchable: transfer.batchable,
                message,
            }),
            _ => unreachable!(),
        }
    }

    // Tests whether the delivery may continue with this transfer.
    fn check(&self, transfer: &Transfer) -> Result<(), DeliveryError>
        ensures ok { OnOk result (MayContinue self.now transfer.now) }
        ensures err { IfErr result (λ e. (most : ℕ) (payload : List ℕ) → DeliveryFault most (Some self.now) transfer.now payload e) }
    {
        if transfer
            .delivery_id
            .is_some_and(|id| id != self.delivery_id)
        {
            return Err(DeliveryError::OtherDeliveryId);
        }
        if let Some(tag) = &transfer.delivery_tag
            && *tag != self.delivery_tag
        {
            return Err(DeliveryError::OtherDeliveryTag);
        }
        if transfer
            .message_format
            .is_some_and(|format| format != self.message_format)
        {
            return Err(DeliveryError::OtherMessageFormat);
        }
        Ok(())
    }

    // Adds a later transfer.
    fn add(&mut self, transfer: &mut Transfer, payload: &[u8]) -> Result<(), DeliveryError>
        ensures rest { transfer.new.more ≡ transfer.old.more }
        ensures ok { OnOk result (Continues self.old transfer.old payload.now self.new) }
        ensures err { IfErr result (λ e. (e ≡ DeliveryError.Memory) × IsKept self.old self.new) }
    {
        self.message.extend_from_slice(payload)?;
        self.settled = later_flag(self.settled, transfer.settled);
        put_later_state(&mut self.state, &mut transfer.state);
        Ok(())
    }
}

// Whether a delivery is settled after one more transfer.
fn later_flag(before: bool, flag: Option<bool>) -> bool
    ensures { result ≡ later_flag before flag }
{
    before || flag.unwrap_or(false)
}

// Puts the state of one more transfer in the place of the delivery's.
#[tactic(auto, using(crate::proofs::DeliveryLemmas::later_taken, crate::proofs::DeliveryLemmas::later_left, crate::proofs::DeliveryLemmas::none_later))]
fn put_later_state(before: &mut Option<DeliveryState>, state: &mut Option<DeliveryState>)
    ensures { before.new ≡ later_state before.old state.old }
{
    if state.is_some() && !has_ended(before) {
        swap(before, state);
    }
}

// Whether this is a terminal state.
fn has_ended(state: &Option<DeliveryState>) -> bool
    ensures { result ≡ has_ended state.now }
{
    match state {
        Some(state) => state.is_terminal(),
        None => false,
    }
}

// Tests whether the transfer may be the first one of a delivery.
fn check_first(transfer: &Transfer) -> Result<(), DeliveryError>
    ensures ok { OnOk result (MayBegin transfer.now) }
    ensures err { IfErr result (λ e. (most : ℕ) (payload : List ℕ) → DeliveryFault most None transfer.now payload e) }
{
    if transfer.delivery_id.is_none() {
        return Err(DeliveryError::NoDeliveryId);
    }
    if transfer.delivery_tag.is_none() {
        return Err(DeliveryError::NoDeliveryTag);
    }
    Ok(())
}
