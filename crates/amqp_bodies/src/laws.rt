//! What holds for bodies in addition to the laws of every type. The functions do nothing; their contracts are proved.
ghost use Rattle.std.specs.Prelude.{◌≡◌, ◌↔◌, ℕ, List, IsTrue, take};
ghost use Rattle.amqp_wire.specs.declared.limits.Limits.{Limits};
ghost use Rattle.amqp_wire.specs.Limits.{limit_of};
ghost use Rattle.amqp_decoder.specs.State.{Has};
ghost use Rattle.amqp_codec.specs.Reading.{BeginsWithin, BeginsWith};
ghost use Rattle.amqp_batches.specs.Bounds.{AreAllowed};
ghost use Rattle.amqp_sections.specs.declared.data.Data.{Data as DataOf};
ghost use Rattle.amqp_sections.specs.declared.amqp_sequence.AmqpSequence.{AmqpSequence as SequenceOf};
ghost use Rattle.amqp_sections.specs.declared.amqp_value.AmqpValue.{AmqpValue as ValueOf};
ghost use Rattle.amqp_batches.specs.declared.transparent_vec.TransparentVec.{TransparentVec};
ghost use Rattle.amqp_bodies.specs.Members.{AreRelated};
ghost use Rattle.amqp_bodies.specs.declared.body.Body.{Body as BodyOf};

use crate::body::Body;
use crate::traits::{FromBody, FromEmptyBody, IntoBody, PlainIntoBody, ValueFromBody};
use amqp_batches::{Batch, BatchItem};
use amqp_codec::DeserializeTerm;
use amqp_sections::{AmqpSequence, AmqpValue, Data};

/// Within limits of the caller, a body is read from the first n bytes exactly if it is read from them without limits, and they keep the
/// limits. They do if n is at most the limit on bytes, and their sections nest no deeper and have together no more items than the limits
/// allow. A described value is one with its descriptor.
pub fn limits_bound_bodies<B: FromBody>()
    ensures within { (limits : Limits) (input : List ℕ) (body : B.Body) (n : ℕ) → BeginsWithin limits B.made.group input body n
        ↔ (BeginsWith B.made.group input body n × Has (limit_of limits.bytes) n × AreAllowed limits (take n input)) }
{}

/// A clone of a body is of the same kind, and holds a clone of what the body holds.
pub fn contents_are_copied<T: Clone>()
    ensures { (body copy : BodyOf T) → ⟦<Body<T> as Clone>⟧.is_clone body copy
        → AreRelated ⟦<AmqpValue<T> as Clone>⟧.is_clone ⟦<Batch<Data> as Clone>⟧.is_clone
        ⟦<Batch<AmqpSequence<T>> as Clone>⟧.is_clone body copy }
{}

/// If clones of values are equal to them, a clone of a body is equal to the body.
pub fn copies_are_equal<T: Clone + PartialEq>()
    ensures { ((v w : T) → T.is_clone v w → IsTrue (T.eq v w)) → (body copy : BodyOf T)
        → ⟦<Body<T> as Clone>⟧.is_clone body copy → IsTrue (⟦<Body<T> as PartialEq>⟧.eq body copy) }
{
    amqp_sections::laws::copies_are_equal::<T>();
    amqp_batches::laws::copies_are_equal::<AmqpSequence<T>>();
    amqp_batches::laws::copies_are_equal::<Data>();
}

/// What is made of the body that a value is made into is that value again.
pub fn values_are_made_again<T: PlainIntoBody + ValueFromBody>()
    ensures { (v w : T) → ⟦<T as FromBody>⟧.made.of_body (⟦<T as IntoBody>⟧.body v) w ↔ (w ≡ v) }
{}

/// So it is for a section with a value.
pub fn value_sections_are_made_again<T: DeserializeTerm + FromEmptyBody>()
    ensures { (v w : ValueOf T) → ⟦<AmqpValue<T> as FromBody>⟧.made.of_body (⟦<AmqpValue<T> as IntoBody>⟧.body v) w ↔ (w ≡ v) }
{}

/// So it is for a body of any kind, for a section with bytes, and for one with a list.
pub fn bodies_are_made_again<T: DeserializeTerm>()
    ensures any { (v w : BodyOf T) → ⟦<Body<T> as FromBody>⟧.made.of_body (⟦<Body<T> as IntoBody>⟧.body v) w ↔ (w ≡ v) }
    ensures data_ { (v w : DataOf) → ⟦<Data as FromBody>⟧.made.of_body (⟦<Data as IntoBody>⟧.body v) w ↔ (w ≡ v) }
    ensures sequence { (v w : SequenceOf T) → ⟦<AmqpSequence<T> as FromBody>⟧.made.of_body (⟦<AmqpSequence<T> as IntoBody>⟧.body v) w
        ↔ (w ≡ v) }
{}

/// So it is for a batch of such sections.
pub fn batches_are_made_again<T: BatchItem + DeserializeTerm>()
    ensures { (v w : TransparentVec T) → ⟦<Batch<T> as FromBody>⟧.made.of_body (⟦<Batch<T> as IntoBody>⟧.body v) w ↔ (w ≡ v) }
{}
