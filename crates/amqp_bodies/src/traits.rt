//! What can be the body of a message (Part 3, section 3.2).
ghost use Rattle.std.specs.Prelude.{◌≡◌, ◌⊎◌, ℕ, List, Option, Some, None, IfOk, IfErr};
ghost use Rattle.amqp_bodies.specs.BodyTexts.{IsBodyText};
ghost use Rattle.amqp_bodies.specs.NullBodies.{AreSpelled};
ghost use Rattle.amqp_wire.specs.Sources.{Tells};
ghost use Rattle.amqp_wire.specs.declared.error.Error.TheVariants.{Memory, EmptyBody};
ghost use Rattle.amqp_decoder.specs.Places.{AnswersAt};
ghost use Rattle.amqp_decoder.specs.Steps.{Tries};
ghost use Rattle.amqp_codec.specs.Reading.{Reading};
ghost use Rattle.amqp_batches.specs.Walk.{IsNext};
ghost use Rattle.amqp_batches.specs.Spellings.{Spells};
ghost use Rattle.amqp_batches.specs.SpellingFaults.{Faults};
ghost use Rattle.amqp_batches.specs.laws.ReadAs.{IsReadAs};
ghost use Rattle.amqp_batches.specs.laws.NamedAs.{IsNamedAs};
ghost use Rattle.amqp_bodies.specs.ReadsAs.{ReadsAs};
ghost use Rattle.amqp_bodies.specs.SomeReading.{some_reading};
ghost use Rattle.amqp_bodies.specs.Bodies.{Empties, Made};

use amqp_codec::{DeserializeTerm, Serialize, SerializeTerm};
use amqp_decoder::Decoder;
use amqp_wire::{ByteSource, Error};
use std::alloc::Global;

/// A section of a message's body, or several that are one. It isn't exported, so no other crate adds one.
pub trait BodySection {}

/// What can be written as the body of a message.
pub trait SerializableBody: Serialize + BodySection {}

/// A value that the body of a message can be made of.
pub trait IntoBody: Sized {
    /// The type that it is written as.
    type Body: SerializableBody;

    // The body of a value.
    ghost body: { Self → Self.Body };

    /// Returns the body of a message with this value. It doesn't allocate.
    fn into_body(self) -> Self::Body
        ensures { result ≡ body self };
}

/// A body that can also be made of a borrowed value.
pub trait AsBodyRef<'a, T: IntoBody<Body = Self>>: SerializableBody + Sized {
    /// The type that the borrowed value is written as.
    type BodyRef: SerializableBody;

    // It is the body of a borrow of this value.
    ghost borrows: { Self.BodyRef → T → Type 0 };

    /// Returns the body of a message with the borrowed value. It doesn't allocate.
    fn as_body_ref(value: &'a T) -> Self::BodyRef
        ensures { borrows result value.now };
}

/// A type whose values are written as an `AmqpValue` if they are the body of a message. Implement this empty trait to make your type
/// `IntoBody`.
pub trait PlainIntoBody: SerializeTerm {}

/// What can be read as the body of a message.
pub trait DeserializableBody: BodySection + Sized + Drop {
    // How a group of its sections is read, if a section of a body comes next.
    ghost group: { Reading Self };

    // Which bytes spell such a group, and what is wrong with those that begin with none.
    ghost spells: { Spells Self };

    ghost faults: { Faults };

    /// Reads a group of its sections: one section, or those of one kind that come one after another. The caller has looked at what comes next:
    /// a section with this code. It returns `WrongDescriptor` if no group of this type begins with such a section, and otherwise the errors
    /// of a section.
    fn read_group<R: ByteSource>(
        code: u8,
        decoder: &mut Decoder<R>,
        alloc: Global,
    ) -> Result<Self, Error>
        ensures read { Tells R.remaining → IsNext code decoder.old
            → AnswersAt group.takes_memory group.reads group.fault decoder.old result decoder.new }
        ensures tries { Tries group.takes_memory decoder.old result decoder.new };

    // What is read is what the bytes spell, and the fault that is reported is theirs.
    ghost is_read: { IsReadAs group spells };

    ghost is_named: { IsNamedAs group faults };
}

/// What takes the place of the body of a message that has none.
pub trait FromEmptyBody: Sized {
    // The values that do.
    ghost empties: { Empties Self };

    /// Returns a value that takes the place of an absent body, or `EmptyBody` if there is no such value. The only other error is `Memory`.
    fn from_empty_body(alloc: Global) -> Result<Self, Error>
        ensures value { IfOk result empties.is }
        ensures refused { IfErr result (λ e. (e ≡ Memory) ⊎ ((e ≡ EmptyBody) × ((v : Self) → empties.is v → ⊥))) };
}

/// What can be made of the body of a message that is read.
pub trait FromBody: FromEmptyBody + Drop {
    /// The type that it is read as.
    type Body: DeserializableBody;

    // How the body is read, and the value made of it, with the laws.
    ghost made: { Made Self.Body Self };

    /// Returns the value that is made of the body. The only error is `Memory`.
    fn from_body(body: Self::Body, alloc: Global) -> Result<Self, Error>
        ensures value { IfOk result (λ v. made.of_body body v) }
        ensures memory { IfErr result (λ e. e ≡ Memory) };

    // It is read as its type says.
    ghost group_is: { ReadsAs made.group Self.Body.group };

    // The values that take the place of an absent body are those that `from_empty_body` states.
    ghost empty_is: { (v : Self) → Self.FromEmptyBody.empties.is v → made.empty v };

    ghost is_empty: { (v : Self) → made.empty v → Self.FromEmptyBody.empties.is v };
}

/// A body in which there may be nothing. Nothing is a null in an `AmqpValue`, an empty `AmqpSequence` or `Data`, or a batch without
/// sections. It is also a null among the items of a sequence, and no body.
pub trait TransposeOption<To: FromBody>: BodySection + Sized {
    /// The type that it is read as.
    type From: DeserializableBody;

    // How it is read, and what is made of it, with the laws.
    ghost transposed: { Made Self.From (Option To) };

    /// Returns what is made of the body, or `None` if there is nothing in it. The only error is `Memory`.
    fn transpose(src: Self::From, alloc: Global) -> Result<Option<To>, Error>
        ensures value { IfOk result (λ v. transposed.of_body src v) }
        ensures memory { IfErr result (λ e. e ≡ Memory) };

    // It is read as its type says.
    ghost from_is: { ReadsAs transposed.group Self.From.group };

    // What takes the place of an absent body is `None`.
    ghost none_is: { (v : Option To) → v ≡ None → transposed.empty v };

    ghost is_none: { (v : Option To) → transposed.empty v → v ≡ None };
}

/// A body that may be empty, and is `None` then. It isn't exported, so no other crate adds one.
pub trait EmptyIsNothing: DeserializableBody + FromBody<Body = Self> {
    // How it is read if it may be absent, and what is made of it, with the laws.
    ghost optional: { Made (Option Self) (Option Self) };

    /// Returns itself, or `None` if it is empty.
    fn unless_empty(self) -> Option<Self>
        ensures { optional.of_body (Some self) result };

    // It is read as itself, where it is there.
    ghost optional_is: { ReadsAs optional.group (some_reading Self.group) };

    // An absent body is made of an absent one, and takes its place.
    ghost of_none: { optional.of_body None None };

    ghost none_is: { (v : Option Self) → v ≡ None → optional.empty v };

    ghost is_none: { (v : Option Self) → optional.empty v → v ≡ None };
}

/// What can be both written and read as the body of a message, so that each message has one canonical text.
pub trait CanonicalBody: FromBody<Body = Self> + SerializableBody {
    // What may come after its text; what that is read as; of which values that is the value; of which it is read at all.
    ghost follows: { List ℕ → Type 0 };

    ghost again: { Self → Self };

    ghost kept: { Self → Type 0 };

    ghost lasts: { Self → Type 0 };

    // The laws.
    ghost is_text: { IsBodyText Self.made Self.writing follows again kept lasts };
}

/// What can be the value of a message's body, so that a message that has no body is read again from its text.
pub trait ValueBody: DeserializeTerm + FromEmptyBody {
    // What takes the place of an absent body is one value, and bytes spell the section with it.
    ghost empty_is_spelled: { AreSpelled Self.term Self.empties };
}

/// A type whose values are read from an `AmqpValue` if they are the body of a message.
pub trait ValueFromBody: ValueBody {}

/// A type whose values are read from an `AmqpValue` if they are the body of a message. No value of it takes the place of an absent body.
/// Implement this empty trait to make your type `FromBody`.
pub trait PlainFromBody: DeserializeTerm {}
