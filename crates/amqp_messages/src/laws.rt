//! What holds for messages in addition to the laws of every type. The functions do nothing; their contracts are proved.
ghost use Rattle.std.specs.Prelude.{◌≡◌, ◌↔◌, ◌⊎◌, ℕ, List, [], IsTrue, take};
ghost use Rattle.amqp_wire.specs.declared.error.Error.TheVariants.{EmptyBody};
ghost use Rattle.amqp_encoder.specs.Passes.{row_text};
ghost use Rattle.amqp_codec.specs.Written.{AreWritable};
ghost use Rattle.amqp_wire.specs.declared.limits.Limits.{Limits};
ghost use Rattle.amqp_wire.specs.Limits.{limit_of};
ghost use Rattle.amqp_decoder.specs.State.{Has};
ghost use Rattle.amqp_codec.specs.Reading.{BeginsWithin, BeginsWith, IsUnreadable};
ghost use Rattle.amqp_batches.specs.Bounds.{AreAllowed};
ghost use Rattle.amqp_messages.specs.Builders.{built, with_body};
ghost use Rattle.amqp_messages.specs.Messages.{as_strict};
ghost use Rattle.amqp_messages.specs.MessageAgain.{message_again};
ghost use Rattle.amqp_messages.specs.MessageCalls.{IsReadWhole};
ghost use Rattle.amqp_messages.specs.MessageCalls.{only_body};
ghost use Rattle.amqp_messages.specs.declared.builder.Builder.{Builder as BuilderOf};
ghost use Rattle.amqp_messages.specs.declared.message.Message.{Message as MessageOf};

use crate::builder::Builder;
use crate::message::Message;
use crate::strict::Strict;
use amqp_bodies::{CanonicalBody, FromBody};
use amqp_codec::{Deserialize, Serialize};
use amqp_map_sections::{ApplicationProperties, DeliveryAnnotations, Footer, MessageAnnotations};
use amqp_message_headers::laws::copies_of_options_are_equal;
use amqp_message_headers::{Header, Properties};

/// Within limits of the caller, a message is read from the first n bytes exactly if it is read from them without limits, and they keep the
/// limits. They do if n is at most the limit on bytes, and their sections nest no deeper and have together no more items than the limits
/// allow. A described value is one with its descriptor. That is so for sections in any order, and for strict messages.
pub fn limits_bound_messages<B: FromBody>()
    ensures any { (limits : Limits) (input : List ℕ) (message : _) (n : ℕ)
        → BeginsWithin limits ⟦<Message<B> as Deserialize>⟧.reading input message n
        ↔ (BeginsWith ⟦<Message<B> as Deserialize>⟧.reading input message n × Has (limit_of limits.bytes) n
        × AreAllowed limits (take n input)) }
    ensures strict { (limits : Limits) (input : List ℕ) (message : _) (n : ℕ)
        → BeginsWithin limits ⟦<Strict<B> as Deserialize>⟧.reading input message n
        ↔ (BeginsWith ⟦<Strict<B> as Deserialize>⟧.reading input message n × Has (limit_of limits.bytes) n
        × AreAllowed limits (take n input)) }
{}

/// The text of the body of a message that was read is read again (`lasts`), or the body takes the place of an absent one.
pub fn bodies_last<B: CanonicalBody>()
    ensures any { (input : List ℕ) (message : MessageOf B) (n : ℕ) → BeginsWith ⟦<Message<B> as Deserialize>⟧.reading input message n
        → B.lasts message.body ⊎ B.made.empty message.body }
    ensures strict { (input : List ℕ) (message : MessageOf B) (n : ℕ)
        → BeginsWith ⟦<Strict<B> as Deserialize>⟧.reading input (as_strict message) n
        → B.lasts message.body ⊎ B.made.empty message.body }
{}

/// A body that is written as no section, as an empty batch is, isn't in the message's text. In any order and strictly, the text is read with
/// what takes the place of an absent body, or refused with `EmptyBody` if nothing does.
pub fn bodies_without_sections_are_absent<B: CanonicalBody>()
    ensures any { (message : MessageOf B) (body : B) → ⟦<Message<B> as Serialize>⟧.writing.is_value message
        → AreWritable (⟦<Message<B> as Serialize>⟧.writing.canons message) → B.writing.canons message.body ≡ [] → B.made.empty body
        → IsReadWhole ⟦<Message<B> as Deserialize>⟧.reading (row_text (⟦<Message<B> as Serialize>⟧.writing.canons message))
        (with_body body (message_again B.again message)) }
    ensures strict { (message : MessageOf B) (body : B) → ⟦<Message<B> as Serialize>⟧.writing.is_value message
        → AreWritable (⟦<Message<B> as Serialize>⟧.writing.canons message) → B.writing.canons message.body ≡ [] → B.made.empty body
        → IsReadWhole ⟦<Strict<B> as Deserialize>⟧.reading (row_text (⟦<Message<B> as Serialize>⟧.writing.canons message))
        (as_strict (with_body body (message_again B.again message))) }
    ensures refused { (message : MessageOf B) → ⟦<Message<B> as Serialize>⟧.writing.is_value message
        → AreWritable (⟦<Message<B> as Serialize>⟧.writing.canons message) → B.writing.canons message.body ≡ []
        → ((body : B) → B.made.empty body → ⊥)
        → IsUnreadable ⟦<Message<B> as Deserialize>⟧.reading (row_text (⟦<Message<B> as Serialize>⟧.writing.canons message)) EmptyBody }
    ensures strictly_refused { (message : MessageOf B) → ⟦<Message<B> as Serialize>⟧.writing.is_value message
        → AreWritable (⟦<Message<B> as Serialize>⟧.writing.canons message) → B.writing.canons message.body ≡ []
        → ((body : B) → B.made.empty body → ⊥)
        → IsUnreadable ⟦<Strict<B> as Deserialize>⟧.reading (row_text (⟦<Message<B> as Serialize>⟧.writing.canons message)) EmptyBody }
{}

/// By default a message has only its body, which is the default of its type.
pub fn defaults<B: Default>()
    ensures message { (message : MessageOf B) → ⟦<Message<B> as Default>⟧.is_default message
        → (message ≡ only_body message.body) × B.is_default message.body }
    ensures builder { (builder : BuilderOf B) → ⟦<Builder<B> as Default>⟧.is_default builder
        → (built builder ≡ only_body builder.body) × B.is_default builder.body }
{}

/// Each section of a clone is a clone of the message's section, and it has no other sections.
pub fn sections_are_copied<B: Clone>()
    ensures header { (message copy : MessageOf B) → ⟦<Message<B> as Clone>⟧.is_clone message copy
        → ⟦<Option<Header> as Clone>⟧.is_clone message.header copy.header }
    ensures delivery_annotations { (message copy : MessageOf B) → ⟦<Message<B> as Clone>⟧.is_clone message copy
        → ⟦<Option<DeliveryAnnotations> as Clone>⟧.is_clone message.delivery_annotations copy.delivery_annotations }
    ensures message_annotations { (message copy : MessageOf B) → ⟦<Message<B> as Clone>⟧.is_clone message copy
        → ⟦<Option<MessageAnnotations> as Clone>⟧.is_clone message.message_annotations copy.message_annotations }
    ensures properties { (message copy : MessageOf B) → ⟦<Message<B> as Clone>⟧.is_clone message copy
        → ⟦<Option<Properties> as Clone>⟧.is_clone message.properties copy.properties }
    ensures application_properties { (message copy : MessageOf B) → ⟦<Message<B> as Clone>⟧.is_clone message copy
        → ⟦<Option<ApplicationProperties> as Clone>⟧.is_clone message.application_properties copy.application_properties }
    ensures body { (message copy : MessageOf B) → ⟦<Message<B> as Clone>⟧.is_clone message copy → B.is_clone message.body copy.body }
    ensures footer { (message copy : MessageOf B) → ⟦<Message<B> as Clone>⟧.is_clone message copy
        → ⟦<Option<Footer> as Clone>⟧.is_clone message.footer copy.footer }
{}

/// If clones of bodies are equal to them, a clone of a message is equal to the message.
pub fn copies_are_equal<B: Clone + PartialEq>()
    ensures { ((v w : B) → B.is_clone v w → IsTrue (B.eq v w)) → (message copy : MessageOf B)
        → ⟦<Message<B> as Clone>⟧.is_clone message copy → IsTrue (⟦<Message<B> as PartialEq>⟧.eq message copy) }
{
    amqp_message_headers::laws::copies_are_equal();
    amqp_map_sections::laws::copies_are_equal();
    copies_of_options_are_equal::<Header>();
    copies_of_options_are_equal::<DeliveryAnnotations>();
    copies_of_options_are_equal::<MessageAnnotations>();
    copies_of_options_are_equal::<Properties>();
    copies_of_options_are_equal::<ApplicationProperties>();
    copies_of_options_are_equal::<Footer>();
}
