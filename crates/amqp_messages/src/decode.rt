//! Messages from readers, and values from messages, by the type of the value (Part 3, section 3.2).
ghost use Rattle.std.specs.Prelude.{◌≡◌, ◌⊎◌, ℕ, List, true, IfOk, IfErr, MatchResult};
ghost use Rattle.amqp_wire.specs.declared.error.Error.TheVariants.{Memory, Limit};
ghost use Rattle.amqp_wire.specs.Sources.{known, Tells};
ghost use Rattle.amqp_decoder.specs.Steps.{IsReadError};
ghost use Rattle.amqp_codec.specs.Reading.{BeginsWith, IsUnreadable};
ghost use Rattle.amqp_messages.specs.declared.message.Message.{Message as MessageOf};

use crate::message::Message;
use amqp_bodies::FromBody;
use amqp_codec::Deserialize;
use amqp_read_write::from_reader;
use amqp_wire::{ByteSource, Error};
use std::alloc::Global;

/// What can be the body of a message that is read from a reader.
pub trait DecodeIntoMessage: Sized {
    /// The error if there is no message.
    type DecodeError;

    // The bytes begin with the message, which takes so many of them.
    ghost begins: { List ℕ → MessageOf Self → ℕ → Type 0 };

    /// Reads the message at the start of the reader's bytes.
    fn decode_message_from_reader<R: ByteSource>(
        reader: &mut R,
        alloc: Global,
    ) -> Result<Message<Self>, Self::DecodeError>
        ensures found { Tells R.remaining → IfOk result (λ message. (n : ℕ) × begins (known (R.remaining reader.old)) message n) };
}

/// Reads the message as `from_reader` does: its sections are in any order, the last of each kind counts, and at most seven groups are read.
/// The reader may have been read further than the end of the message. Clause `any` of law `messages_are_spelled` says which bytes are one.
impl<B: FromBody> DecodeIntoMessage for B {
    type DecodeError = Error;

    ghost begins = { BeginsWith ⟦<Message<B> as Deserialize>⟧.reading };

    fn decode_message_from_reader<R: ByteSource>(
        reader: &mut R,
        alloc: Global,
    ) -> Result<Message<B>, Error>
        ensures found { Tells R.remaining → IfOk result (λ message. (n : ℕ)
            × BeginsWith ⟦<Message<B> as Deserialize>⟧.reading (known (R.remaining reader.old)) message n) }
        ensures one { Tells R.remaining → IfOk result (λ message. (w : _) (m : ℕ)
            → BeginsWith ⟦<Message<B> as Deserialize>⟧.reading (known (R.remaining reader.old)) w m
            → ⟦<Message<B> as Deserialize>⟧.reading.same message w) }
        ensures refused { Tells R.remaining → IfErr result (λ e. (e ≡ Memory) ⊎ ((IsReadError e × (R.failed reader.new ≡ true))
            ⊎ IsUnreadable ⟦<Message<B> as Deserialize>⟧.reading (known (R.remaining reader.old)) e)) }
        ensures unlimited { IfErr result (λ e. e ≡ Limit → ⊥) }
        ensures failed { IfErr result (λ e. IsReadError e → R.failed reader.new ≡ true) }
        ensures failing { MatchResult result (λ _. R.failed reader.new ≡ R.failed reader.old)
            (λ e. (R.failed reader.new ≡ R.failed reader.old) ⊎ IsReadError e) }
    {
        from_reader::<Message<B>, R>(reader, alloc)
    }
}

/// What can be made of a message with this body. Each type that can be made of a body that is read is one.
pub trait FromMessage<B>: Sized {
    // The value is made of the body.
    ghost of_body: { B → Self → Type 0 };

    /// Makes the value of the message's body, and drops the other sections. The only error is `Memory`.
    fn from_message(message: Message<B>, alloc: Global) -> Result<Self, Error>
        ensures value { IfOk result (λ v. of_body message.body v) }
        ensures memory { IfErr result (λ e. e ≡ Memory) };
}

impl<T: FromBody<Body = B>, B> FromMessage<B> for T {
    ghost of_body = { T.made.of_body };

    fn from_message(message: Message<B>, alloc: Global) -> Result<T, Error>
        ensures value { IfOk result (λ v. T.made.of_body message.body v) }
        ensures memory { IfErr result (λ e. e ≡ Memory) }
    {
        T::from_body(message.body, alloc)
    }
}
