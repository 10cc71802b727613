//! Messages whose sections are in the standard's order, each kind at most once, to the end of the input (Part 3, section 3.2).
ghost use Rattle.std.specs.Prelude.{◌≡◌, ◌⊎◌, ℕ, List, [], true, false, length, IfOk, IfErr, OnOk, MatchResult};
ghost use Rattle.amqp_wire.specs.declared.error.Error.TheVariants.{Memory, Limit};
ghost use Rattle.amqp_wire.specs.declared.limits.Limits.{Limits};
ghost use Rattle.amqp_wire.specs.Sources.{known, Tells};
ghost use Rattle.amqp_decoder.specs.Steps.{IsReadError};
ghost use Rattle.amqp_codec.specs.Reading.{IsGreatest, BeginsWith, IsUnreadable, BeginsWithin, IsUnreadableWithin};
ghost use Rattle.amqp_codec.specs.Agreement.{via_writing};
ghost use Rattle.amqp_read_write.specs.Rewritten.{IsRewritten, IsReadAgain, AreReadAgain, IsOneText, IsOfNoOther, IsUnchanged, IsUnwritten};
ghost use Rattle.amqp_read_write.specs.Rewritten.{IsRewrittenWithin, IsUnwrittenWithin};
ghost use Rattle.amqp_annotations.specs.AnnotationsType.{annotations_agreement};
ghost use Rattle.amqp_map_sections.specs.SimpleMaps.{simple_map_agreement};
ghost use Rattle.amqp_batches.specs.WalkReading.{walk_reading, reading_via};
ghost use Rattle.amqp_bodies.specs.ReadsAs.{read_as};
ghost use Rattle.amqp_messages.specs.declared.order.Order.TheVariants.{Written};
ghost use Rattle.amqp_messages.specs.MessageAgain.{message_again};
ghost use Rattle.amqp_messages.specs.Messages.{message_of, message_in, as_strict};
ghost use Rattle.amqp_messages.specs.MessageWalk.{message_walk};
ghost use Rattle.amqp_messages.specs.laws.StrictAgain.{strict_is_rewritten};

use crate::message::Message;
use crate::order::Order;
use crate::read::read_message;
use amqp_bodies::{CanonicalBody, FromBody, SerializableBody};
use amqp_codec::{Canonical, Deserialize, Encoder, Pass, Serialize};
use amqp_decoder::Decoder;
use amqp_read_write::{canonical_text, canonical_text_within, from_reader, from_reader_within};
use amqp_wire::{ByteSource, Error, Limits};
use std::alloc::Global;

/// A message that is read strictly.
#[derive(Debug, PartialEq, Eq, Drop)]
pub struct Strict<B>(pub Message<B>);

/// The sections are in the standard's order, each kind at most once, to the end of the input. Any other section is `Misplaced`.
impl<B: FromBody> Deserialize for Strict<B> {
    ghost reading = { reading_via (walk_reading (message_walk Written (message_of B.made))) message_in };

    fn is_one_term() -> bool {
        false
    }

    fn deserialize<R: ByteSource>(
        decoder: &mut Decoder<R>,
        alloc: Global,
    ) -> Result<Strict<B>, Error> {
        Ok(Strict(read_message(Order::Written, decoder, alloc)?))
    }
}

impl<B: SerializableBody> Serialize for Strict<B> {
    ghost writing = { via_writing message_in ⟦<Message<B> as Serialize>⟧.writing };

    fn serialize<P: Pass>(&self, encoder: &mut Encoder<P>) -> Result<(), Error> {
        self.0.serialize(encoder)
    }

    fn in_type(&self) {
        self.0.in_type();
    }
}

/// It is written as any other message.
impl<B: CanonicalBody> Canonical for Strict<B> {
    ghost follows = { λ more. more ≡ [] };

    ghost again = { λ strict. as_strict (message_again B.again (message_in strict)) };

    ghost kept = { λ strict. B.kept (message_in strict).body };

    ghost lasts = { λ strict. B.lasts (message_in strict).body };

    ghost is_least = { false };

    ghost rewrites = { strict_is_rewritten annotations_agreement simple_map_agreement B.is_text (read_as B.group_is B.is_read) };
}

/// Reads the message that the reader's bytes are, strictly. Its sections are in the standard's order: header, delivery annotations, message
/// annotations, properties, application properties, body, footer. Each kind comes at most once, and nothing follows them. A strict message
/// is a message in any order too, with the same value, and it is the whole input. Clause `strict` of law `messages_are_spelled` says which
/// bytes are one.
///
/// # Errors
///
/// A section that isn't later in that order than all sections before it is `Misplaced`. Any other error is that of a message in any order.
pub fn decode_message_strict<B: FromBody, R: ByteSource>(
    reader: &mut R,
    alloc: Global,
) -> Result<Message<B>, Error>
    ensures found { Tells R.remaining → IfOk result (λ message. (n : ℕ)
        × BeginsWith ⟦<Strict<B> as Deserialize>⟧.reading (known (R.remaining reader.old)) (as_strict message) n) }
    ensures one { Tells R.remaining → IfOk result (λ message. (w : _) (m : ℕ)
        → BeginsWith ⟦<Strict<B> as Deserialize>⟧.reading (known (R.remaining reader.old)) w m
        → ⟦<Strict<B> as Deserialize>⟧.reading.same (as_strict message) w) }
    ensures refused { Tells R.remaining → IfErr result (λ e. (e ≡ Memory) ⊎ ((IsReadError e × (R.failed reader.new ≡ true))
        ⊎ IsUnreadable ⟦<Strict<B> as Deserialize>⟧.reading (known (R.remaining reader.old)) e)) }
    ensures unlimited { IfErr result (λ e. e ≡ Limit → ⊥) }
    ensures failed { IfErr result (λ e. IsReadError e → R.failed reader.new ≡ true) }
    ensures failing { MatchResult result (λ _. R.failed reader.new ≡ R.failed reader.old)
        (λ e. (R.failed reader.new ≡ R.failed reader.old) ⊎ IsReadError e) }
    ensures in_any_order { (input : List ℕ) (strict : _) (n : ℕ) → BeginsWith ⟦<Strict<B> as Deserialize>⟧.reading input strict n
        → BeginsWith ⟦<Message<B> as Deserialize>⟧.reading input (message_in strict) n × (n ≡ length input) }
{
    match from_reader::<Strict<B>, R>(reader, alloc) {
        Ok(Strict(message)) => Ok(message),
        Err(error) => Err(error),
    }
}

/// Reads the message that the reader's bytes are, strictly and within limits of the caller. It returns the errors of
/// `decode_message_strict`, or `Limit` if the message is past a limit.
pub fn decode_message_strict_within<B: FromBody, R: ByteSource>(
    reader: &mut R,
    limits: &Limits,
    alloc: Global,
) -> Result<Message<B>, Error>
    ensures found { Tells R.remaining → IfOk result (λ message. (n : ℕ)
        × BeginsWithin limits.now ⟦<Strict<B> as Deserialize>⟧.reading (known (R.remaining reader.old)) (as_strict message) n) }
    ensures one { Tells R.remaining → IfOk result (λ message. (w : _) (m : ℕ)
        → BeginsWithin limits.now ⟦<Strict<B> as Deserialize>⟧.reading (known (R.remaining reader.old)) w m
        → ⟦<Strict<B> as Deserialize>⟧.reading.same (as_strict message) w) }
    ensures refused { Tells R.remaining → IfErr result (λ e. (e ≡ Memory) ⊎ ((IsReadError e × (R.failed reader.new ≡ true))
        ⊎ IsUnreadableWithin limits.now ⟦<Strict<B> as Deserialize>⟧.reading (known (R.remaining reader.old)) e)) }
    ensures limited { IfErr result (λ e. e ≡ Limit → IsGreatest limits.now → ⊥) }
    ensures failed { IfErr result (λ e. IsReadError e → R.failed reader.new ≡ true) }
    ensures failing { MatchResult result (λ _. R.failed reader.new ≡ R.failed reader.old)
        (λ e. (R.failed reader.new ≡ R.failed reader.old) ⊎ IsReadError e) }
    ensures in_any_order { (input : List ℕ) (strict : _) (n : ℕ)
        → BeginsWithin limits.now ⟦<Strict<B> as Deserialize>⟧.reading input strict n
        → BeginsWithin limits.now ⟦<Message<B> as Deserialize>⟧.reading input (message_in strict) n × (n ≡ length input) }
{
    match from_reader_within::<Strict<B>, R>(reader, limits, alloc) {
        Ok(Strict(message)) => Ok(message),
        Err(error) => Err(error),
    }
}

/// Returns the canonical text of the message that the input is, read strictly. The text of a message that can be written is read strictly
/// as it is read in any order, unless its body is an empty batch.
///
/// # Errors
///
/// An error is `Memory`, that of an input which isn't a strict message, or `TooLarge`.
pub fn canonical_text_strict<B: CanonicalBody>(
    input: &[u8],
    alloc: Global,
) -> Result<Vec<u8>, Error>
    ensures text { IfOk result (λ text. IsRewritten ⟦<Strict<B> as Deserialize>⟧.reading ⟦<Strict<B> as Serialize>⟧.writing.canons
        input.now text.items (length input.now)) }
    ensures read_again { IfOk result (λ text. IsReadAgain ⟦<Strict<B> as Deserialize>⟧.reading ⟦<Strict<B> as Canonical>⟧.follows
        ⟦<Strict<B> as Canonical>⟧.again ⟦<Strict<B> as Canonical>⟧.kept ⟦<Strict<B> as Canonical>⟧.lasts input.now text.items
        (length input.now)) }
    ensures one_text { IfOk result (λ text. IsOneText ⟦<Strict<B> as Deserialize>⟧.reading ⟦<Strict<B> as Serialize>⟧.writing.canons
        input.now text.items (length input.now)) }
    ensures no_other { IfOk result (λ text. IsOfNoOther ⟦<Strict<B> as Deserialize>⟧.reading ⟦<Strict<B> as Serialize>⟧.writing.canons
        ⟦<Strict<B> as Canonical>⟧.kept ⟦<Strict<B> as Canonical>⟧.lasts input.now text.items (length input.now)) }
    ensures unchanged { IfOk result (λ text. IsUnchanged ⟦<Strict<B> as Deserialize>⟧.reading ⟦<Strict<B> as Serialize>⟧.writing.canons
        ⟦<Strict<B> as Canonical>⟧.lasts input.now text.items (length input.now)) }
    ensures refused { IfErr result (λ e. (e ≡ Memory) ⊎ (IsUnreadable ⟦<Strict<B> as Deserialize>⟧.reading input.now e
        ⊎ IsUnwritten ⟦<Strict<B> as Deserialize>⟧.reading ⟦<Strict<B> as Serialize>⟧.writing.canons input.now e)) }
    ensures unfailing { IfErr result (λ e. IsReadError e → ⊥) }
    ensures unlimited { IfErr result (λ e. e ≡ Limit → ⊥) }
    ensures in_any_order { (bytes : List ℕ) (strict : _) (n : ℕ) → BeginsWith ⟦<Strict<B> as Deserialize>⟧.reading bytes strict n
        → BeginsWith ⟦<Message<B> as Deserialize>⟧.reading bytes (message_in strict) n × (n ≡ length bytes) }
    ensures strictly { AreReadAgain ⟦<Strict<B> as Deserialize>⟧.reading ⟦<Strict<B> as Serialize>⟧.writing.canons
        ⟦<Strict<B> as Serialize>⟧.writing.is_value ⟦<Strict<B> as Canonical>⟧.follows ⟦<Strict<B> as Canonical>⟧.again
        ⟦<Strict<B> as Canonical>⟧.lasts }
    ensures leniently { AreReadAgain ⟦<Message<B> as Deserialize>⟧.reading ⟦<Message<B> as Serialize>⟧.writing.canons
        ⟦<Message<B> as Serialize>⟧.writing.is_value ⟦<Message<B> as Canonical>⟧.follows ⟦<Message<B> as Canonical>⟧.again
        ⟦<Message<B> as Canonical>⟧.lasts }
{
    match canonical_text::<Strict<B>>(input, alloc) {
        Ok((text, _len)) => Ok(text),
        Err(error) => Err(error),
    }
}

/// Returns the canonical text of the message that the input is, read strictly and within limits of the caller. The clauses of
/// `canonical_text_strict` about the text hold here, too.
///
/// # Errors
///
/// An error is `Memory`, that of an input which isn't a strict message within the limits, or `TooLarge`.
pub fn canonical_text_strict_within<B: CanonicalBody>(
    input: &[u8],
    limits: &Limits,
    alloc: Global,
) -> Result<Vec<u8>, Error>
    ensures text { IfOk result (λ text. IsRewrittenWithin limits.now ⟦<Strict<B> as Deserialize>⟧.reading
        ⟦<Strict<B> as Serialize>⟧.writing.canons input.now text.items (length input.now)) }
    ensures read_again { IfOk result (λ text. IsReadAgain ⟦<Strict<B> as Deserialize>⟧.reading ⟦<Strict<B> as Canonical>⟧.follows
        ⟦<Strict<B> as Canonical>⟧.again ⟦<Strict<B> as Canonical>⟧.kept ⟦<Strict<B> as Canonical>⟧.lasts input.now text.items
        (length input.now)) }
    ensures one_text { IfOk result (λ text. IsOneText ⟦<Strict<B> as Deserialize>⟧.reading ⟦<Strict<B> as Serialize>⟧.writing.canons
        input.now text.items (length input.now)) }
    ensures no_other { IfOk result (λ text. IsOfNoOther ⟦<Strict<B> as Deserialize>⟧.reading ⟦<Strict<B> as Serialize>⟧.writing.canons
        ⟦<Strict<B> as Canonical>⟧.kept ⟦<Strict<B> as Canonical>⟧.lasts input.now text.items (length input.now)) }
    ensures unchanged { IfOk result (λ text. IsUnchanged ⟦<Strict<B> as Deserialize>⟧.reading ⟦<Strict<B> as Serialize>⟧.writing.canons
        ⟦<Strict<B> as Canonical>⟧.lasts input.now text.items (length input.now)) }
    ensures refused { IfErr result (λ e. (e ≡ Memory) ⊎ (IsUnreadableWithin limits.now ⟦<Strict<B> as Deserialize>⟧.reading input.now e
        ⊎ IsUnwrittenWithin limits.now ⟦<Strict<B> as Deserialize>⟧.reading ⟦<Strict<B> as Serialize>⟧.writing.canons input.now e)) }
    ensures unfailing { IfErr result (λ e. IsReadError e → ⊥) }
    ensures limited { IfErr result (λ e. e ≡ Limit → IsGreatest limits.now → ⊥) }
    ensures in_any_order { (bytes : List ℕ) (strict : _) (n : ℕ)
        → BeginsWithin limits.now ⟦<Strict<B> as Deserialize>⟧.reading bytes strict n
        → BeginsWithin limits.now ⟦<Message<B> as Deserialize>⟧.reading bytes (message_in strict) n × (n ≡ length bytes) }
{
    match canonical_text_within::<Strict<B>>(input, limits, alloc) {
        Ok((text, _len)) => Ok(text),
        Err(error) => Err(error),
    }
}
