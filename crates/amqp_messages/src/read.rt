//! Reading messages, group by group (Part 3, section 3.2).
ghost use Rattle.amqp_wire.specs.Sources.{Tells};
ghost use Rattle.amqp_decoder.specs.Places.{AnswersAt};
ghost use Rattle.amqp_decoder.specs.Steps.{Tries};
ghost use Rattle.std.specs.Prelude.{◌≡◌, ◌⊎◌, IfOk, IfErr, true};
ghost use Rattle.amqp_batches.specs.Walk.{IsNext, Walked, WalkFault};
ghost use Rattle.amqp_batches.specs.WalkReading.{walk_reading};
ghost use Rattle.amqp_messages.specs.MessageWalk.{message_walk};
ghost use Rattle.amqp_messages.specs.Kinds.{nothing};
ghost use Rattle.amqp_messages.specs.MessageKinds.{seven, IsMadeOf};
ghost use Rattle.amqp_messages.specs.Messages.{readings_of, fields_in, IsUnmade, message_of};
ghost use Rattle.amqp_messages.specs.GroupAnswers.{AnswersPut, AnswersGroup};
ghost use Rattle.amqp_codec.specs.TermReading.{reading_of};
ghost use Rattle.amqp_wire.specs.declared.error.Error.TheVariants.{Memory};
ghost use Rattle.amqp_messages.specs.declared.order.Order.TheVariants.{Any};

use crate::message::{Groups, Message};
use crate::next::next_section;
use crate::order::Order;
use amqp_bodies::{DeserializableBody, FromBody};
use amqp_codec::{Deserialize, DeserializeTerm};
use amqp_decoder::Decoder;
use amqp_map_sections::{ApplicationProperties, DeliveryAnnotations, Footer, MessageAnnotations};
use amqp_message_headers::{Header, Properties};
use amqp_wire::{ByteSource, Error, section_code};
use std::alloc::Global;

// Reads a section, which replaces an earlier one.
#[inline(never)]
fn put_section<T: DeserializeTerm, R: ByteSource>(
    place: &mut Option<T>,
    decoder: &mut Decoder<R>,
    alloc: Global,
) -> Result<(), Error>
    ensures read { Tells R.remaining → AnswersPut (reading_of T.term) place.new decoder.old result decoder.new }
    ensures tries { Tries true decoder.old result decoder.new }
{
    match T::read_value(decoder, alloc) {
        Ok(section) => {
            *place = Some(section);
            Ok(())
        }
        Err(error) => Err(error),
    }
}

// Reads a group of the body's sections, which begins with a section of this code. It replaces an earlier one.
#[inline(never)]
fn put_body<B: FromBody, R: ByteSource>(
    code: u8,
    place: &mut Option<B::Body>,
    decoder: &mut Decoder<R>,
    alloc: Global,
) -> Result<(), Error>
    ensures read { Tells R.remaining → IsNext code decoder.old → AnswersPut B.made.group place.new decoder.old result decoder.new }
    ensures tries { Tries true decoder.old result decoder.new }
{
    match B::Body::read_group(code, decoder, alloc) {
        Ok(body) => {
            *place = Some(body);
            Ok(())
        }
        Err(error) => Err(error),
    }
}

impl<S: Drop> Groups<S> {
    // Nothing was read.
    fn new() -> Groups<S>
        ensures { fields_in result ≡ nothing (seven S) }
    {
        Groups {
            header: None,
            delivery_annotations: None,
            message_annotations: None,
            properties: None,
            application_properties: None,
            body: None,
            footer: None,
        }
    }

    // Reads the group that begins with the section of this code. It replaces an earlier one of its kind.
    fn read_group<B: FromBody<Body = S>, R: ByteSource>(
        &mut self,
        code: u8,
        decoder: &mut Decoder<R>,
        alloc: Global,
    ) -> Result<(), Error>
        ensures read { Tells R.remaining → IsNext code decoder.old → AnswersGroup (seven S) (readings_of B.made.group) code
            (fields_in self.old) (fields_in self.new) decoder.old result decoder.new }
        ensures tries { Tries true decoder.old result decoder.new }
    {
        match code {
            section_code::HEADER => put_section(&mut self.header, decoder, alloc),
            section_code::DELIVERY_ANNOTATIONS => put_section(
                &mut self.delivery_annotations,
                decoder,
                alloc,
            ),
            section_code::MESSAGE_ANNOTATIONS => put_section(
                &mut self.message_annotations,
                decoder,
                alloc,
            ),
            section_code::PROPERTIES => put_section(&mut self.properties, decoder, alloc),
            section_code::APPLICATION_PROPERTIES => put_section(
                &mut self.application_properties,
                decoder,
                alloc,
            ),
            section_code::FOOTER => put_section(&mut self.footer, decoder, alloc),
            _ => put_body::<B, R>(code, &mut self.body, decoder, alloc),
        }
    }

    // The message, or `EmptyBody` if there is no body and no value takes its place.
    fn finish<B: FromBody<Body = S>>(self, alloc: Global) -> Result<Message<B>, Error>
        ensures made { IfOk result (λ v. IsMadeOf B.made (fields_in self) v) }
        ensures refused { IfErr result (λ e. (e ≡ Memory) ⊎ IsUnmade B.made (fields_in self) e) }
    {
        let Groups {
            header,
            delivery_annotations,
            message_annotations,
            properties,
            application_properties,
            body,
            footer,
        } = self;
        let body = match body {
            Some(body) => B::from_body(body, alloc)?,
            None => B::from_empty_body(alloc)?,
        };
        Ok(Message {
            header,
            delivery_annotations,
            message_annotations,
            properties,
            application_properties,
            body,
            footer,
        })
    }
}

/// Reads a message whose sections are in this order.
pub fn read_message<B: FromBody, R: ByteSource>(
    order: Order,
    decoder: &mut Decoder<R>,
    alloc: Global,
) -> Result<Message<B>, Error>
    ensures read { Tells R.remaining → AnswersAt true (Walked (message_walk order (message_of B.made)))
        (WalkFault (message_walk order (message_of B.made))) decoder.old result decoder.new }
    ensures tries { Tries true decoder.old result decoder.new }
{
    let mut groups: Groups<B::Body> = Groups::new();
    let mut left = 7;
    while let Some(code) = next_section(order, left, decoder, alloc)? {
        groups.read_group::<B, R>(code, decoder, alloc)?;
        left = order.further(left, code);
    }
    match groups.finish(alloc) {
        Ok(message) => Ok(message),
        Err(error) => Err(decoder.refuse(error)),
    }
}

/// The sections are in any order, and each kind any number of times: the last of each kind counts. What follows the seventh group isn't
/// read.
impl<B: FromBody> Deserialize for Message<B> {
    ghost reading = { walk_reading (message_walk Any (message_of B.made)) };

    fn is_one_term() -> bool {
        false
    }

    fn deserialize<R: ByteSource>(
        decoder: &mut Decoder<R>,
        alloc: Global,
    ) -> Result<Message<B>, Error> {
        read_message(Order::Any, decoder, alloc)
    }
}
