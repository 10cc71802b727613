//! Performatives with a value in every field.
use crate::parts::{
    binary_of, error_of, fields_of, symbols_of, text_fields_of, text_of, two_symbols_of,
};
use amqp_attach::{Attach, Unsettled};
use amqp_codec::{Error as CodecError, Symbol};
use amqp_containers::Array;
use amqp_delivery::DeliveryState;
use amqp_errors::Fields;
use amqp_performatives::{Begin, Close, Detach, Disposition, End, Flow, Open, Transfer};
use amqp_plain_states::{Accepted, Released};
use amqp_restricted_types::{
    ChannelMax, Handle, IetfLanguageTag, MaxFrameSize, ReceiverSettleMode, Role, SenderSettleMode,
};
use amqp_termini::{Source, Target, TargetArchetype};
use amqp_values::Value;
use std::alloc::Global;

#[derive(Drop)]
struct Names {
    container_id: String,
    hostname: String,
}

fn full_names(alloc: Global) -> Result<Names, CodecError> {
    Ok(Names {
        container_id: text_of("c", alloc)?,
        hostname: text_of("h", alloc)?,
    })
}

#[derive(Drop)]
struct Locales {
    outgoing: Array<IetfLanguageTag>,
    incoming: Array<IetfLanguageTag>,
}

fn full_locales(alloc: Global) -> Result<Locales, CodecError> {
    Ok(Locales {
        outgoing: symbols_of("en", alloc)?,
        incoming: two_symbols_of("de", "fr", alloc)?,
    })
}

// What a connection and a link end with.
#[derive(Drop)]
struct Extensions {
    offered_capabilities: Array<Symbol>,
    desired_capabilities: Array<Symbol>,
    properties: Fields,
}

fn full_extensions(
    properties: Result<Fields, CodecError>,
    alloc: Global,
) -> Result<Extensions, CodecError> {
    Ok(Extensions {
        properties: properties?,
        offered_capabilities: symbols_of("o", alloc)?,
        desired_capabilities: symbols_of("d", alloc)?,
    })
}

/// Returns an open with a value in every field (Part 2, section 2.7.1).
pub fn full_open(alloc: Global) -> Result<Open, CodecError> {
    let names = full_names(alloc)?;
    let locales = full_locales(alloc)?;
    let extensions = full_extensions(text_fields_of("p", "v", alloc), alloc)?;
    Ok(Open {
        container_id: names.container_id,
        hostname: Some(names.hostname),
        max_frame_size: MaxFrameSize(512),
        channel_max: ChannelMax(9),
        idle_time_out: Some(30000),
        outgoing_locales: Some(locales.outgoing),
        incoming_locales: Some(locales.incoming),
        offered_capabilities: Some(extensions.offered_capabilities),
        desired_capabilities: Some(extensions.desired_capabilities),
        properties: Some(extensions.properties),
    })
}

/// Returns a begin with a value in every field (Part 2, section 2.7.2).
pub fn full_begin(alloc: Global) -> Result<Begin, CodecError> {
    Ok(Begin {
        remote_channel: Some(3),
        next_outgoing_id: 4,
        incoming_window: 500,
        outgoing_window: 6,
        handle_max: Handle(7),
        offered_capabilities: Some(symbols_of("o", alloc)?),
        desired_capabilities: Some(two_symbols_of("d", "e", alloc)?),
        properties: Some(fields_of("p", Value::Uint(8), alloc)?),
    })
}

fn boxed_source(alloc: Global) -> Result<Box<Source>, CodecError> {
    Ok(Box::new(alloc, Source::from(text_of("s", alloc)?))?)
}

fn boxed_target(alloc: Global) -> Result<Box<TargetArchetype>, CodecError> {
    let target = Target::from(text_of("t", alloc)?);
    Ok(Box::new(alloc, TargetArchetype::from(target))?)
}

// A delivery that was accepted, and one of which no state is known.
fn two_unsettled(alloc: Global) -> Result<Unsettled, CodecError> {
    let mut unsettled = Unsettled::new(alloc);
    let accepted = DeliveryState::Accepted(Accepted {});
    unsettled.insert(binary_of(&[1], alloc)?, Some(accepted))?;
    unsettled.insert(binary_of(&[2], alloc)?, None)?;
    Ok(unsettled)
}

#[derive(Drop)]
struct Ends {
    source: Box<Source>,
    target: Box<TargetArchetype>,
    unsettled: Unsettled,
}

fn full_ends(alloc: Global) -> Result<Ends, CodecError> {
    Ok(Ends {
        source: boxed_source(alloc)?,
        target: boxed_target(alloc)?,
        unsettled: two_unsettled(alloc)?,
    })
}

/// Returns an attach with a value in every field (Part 2, section 2.7.3).
pub fn full_attach(alloc: Global) -> Result<Attach, CodecError> {
    let name = text_of("link", alloc)?;
    let ends = full_ends(alloc)?;
    let extensions = full_extensions(fields_of("p", Value::Bool(false), alloc), alloc)?;
    Ok(Attach {
        name,
        handle: Handle(2),
        role: Role::Sender,
        snd_settle_mode: SenderSettleMode::Unsettled,
        rcv_settle_mode: ReceiverSettleMode::Second,
        source: Some(ends.source),
        target: Some(ends.target),
        unsettled: Some(ends.unsettled),
        incomplete_unsettled: true,
        initial_delivery_count: Some(10),
        max_message_size: Some(11),
        offered_capabilities: Some(extensions.offered_capabilities),
        desired_capabilities: Some(extensions.desired_capabilities),
        properties: Some(extensions.properties),
    })
}

/// Returns a flow with a value in every field (Part 2, section 2.7.4).
pub fn full_flow(alloc: Global) -> Result<Flow, CodecError> {
    Ok(Flow {
        next_incoming_id: Some(1),
        incoming_window: 2,
        next_outgoing_id: 3,
        outgoing_window: 400,
        handle: Some(Handle(5)),
        delivery_count: Some(6),
        link_credit: Some(7),
        available: Some(8),
        drain: true,
        echo: true,
        properties: Some(fields_of("p", Value::Uint(9), alloc)?),
    })
}

/// Returns a transfer with a value in every field (Part 2, section 2.7.5).
pub fn full_transfer(alloc: Global) -> Result<Transfer, CodecError> {
    Ok(Transfer {
        handle: Handle(1),
        delivery_id: Some(2),
        delivery_tag: Some(binary_of(&[3, 4], alloc)?),
        message_format: Some(5),
        settled: Some(false),
        more: true,
        rcv_settle_mode: Some(ReceiverSettleMode::Second),
        state: Some(DeliveryState::Accepted(Accepted {})),
        resume: true,
        aborted: true,
        batchable: true,
    })
}

/// Returns a disposition with a value in every field (Part 2, section 2.7.6).
pub fn full_disposition() -> Disposition {
    Disposition {
        role: Role::Receiver,
        first: 1,
        last: Some(2),
        settled: true,
        state: Some(DeliveryState::Released(Released {})),
        batchable: true,
    }
}

/// Returns a detach with a value in every field (Part 2, section 2.7.7).
pub fn full_detach(alloc: Global) -> Result<Detach, CodecError> {
    Ok(Detach {
        handle: Handle(3),
        closed: true,
        error: Some(error_of("x", "y", alloc)?),
    })
}

/// Returns an end with a value in every field (Part 2, section 2.7.8).
pub fn full_end(alloc: Global) -> Result<End, CodecError> {
    Ok(End {
        error: Some(error_of("x", "y", alloc)?),
    })
}

/// Returns a close with a value in every field (Part 2, section 2.7.9).
pub fn full_close(alloc: Global) -> Result<Close, CodecError> {
    Ok(Close {
        error: Some(error_of("x", "y", alloc)?),
    })
}
