//! Which bytes are a batch, a body or a message, and that these are what is read (Part 3, section 3.2). The functions do nothing; their
//! contracts are proved.
#![tactic(auto)]

ghost use Rattle.std.specs.Prelude.{◌↔◌, ℕ, List, ◌∷◌, ◌++◌, Option as OptionOf};
ghost use Rattle.amqp_wire.specs.declared.error.Error.{Error as ErrorOf};
ghost use Rattle.amqp_sections.specs.declared.data.Data.{Data as DataOf};
ghost use Rattle.amqp_sections.specs.declared.amqp_sequence.AmqpSequence.{AmqpSequence as SequenceOf};
ghost use Rattle.amqp_sections.specs.declared.amqp_value.AmqpValue.{AmqpValue as ValueOf};
ghost use Rattle.amqp_batches.specs.declared.transparent_vec.TransparentVec.{TransparentVec};
ghost use Rattle.amqp_bodies.specs.declared.body.Body.{Body as BodyOf};
ghost use Rattle.amqp_section_slices.specs.declared.section_kind.SectionKind.{SectionKind};
ghost use Rattle.amqp_section_slices.specs.Slices.{BeginsWithSection};
ghost use Rattle.amqp_batches.specs.Spellings.{IsReadExactly, IsTerm, IsSection, IsBatch};
ghost use Rattle.amqp_batches.specs.SpellingFaults.{IsRefusedFor, IsNoTerm, IsRunFault, IsSectionFault};
ghost use Rattle.amqp_bodies.specs.SpelledBodies.{IsBody, IsThere};
ghost use Rattle.amqp_bodies.specs.SpelledFaults.{IsBodyFault};
ghost use Rattle.amqp_messages.specs.MessageKinds.{IsMessage, IsStrictMessage};
ghost use Rattle.amqp_message_spellings.specs.Sections.{AreSections, HasSections, IsNextOf};
ghost use Rattle.amqp_message_spellings.specs.Faults.{IsMessageFault, IsStrictFault};

use amqp_batches::{Batch, BatchItem};
use amqp_bodies::{Body, DeserializableBody, FromBody};
use amqp_codec::{Deserialize, DeserializeTerm};
use amqp_messages::{Message, Strict};
use amqp_sections::{AmqpSequence, AmqpValue, Data};

/// A batch is read from the first n bytes of an input exactly if these are its sections, one after another, and no further section of the
/// kind comes next. An input is refused for what begins after some whole sections.
pub fn batches_are_spelled<T: BatchItem + DeserializeTerm>()
    ensures exactly { IsReadExactly ⟦<Batch<T> as Deserialize>⟧.reading (IsBatch T.code (IsTerm T.term)) }
    ensures refused { IsRefusedFor ⟦<Batch<T> as Deserialize>⟧.reading (IsRunFault T.code T.term) }
{}

/// What can be read as a body is read from the first n bytes of an input exactly if they spell it, and refused for its faults.
pub fn bodies_are_spelled<B: DeserializableBody>()
    ensures exactly { IsReadExactly B.group B.spells }
    ensures refused { IsRefusedFor B.group B.faults }
{}

/// A body of any kind is spelled by one value, or by as many sections with bytes or with lists as there are. By itself, it is read as such.
pub fn any_body_is_spelled<T: DeserializeTerm>()
    ensures spells { (b : List ℕ) (v : BodyOf T) (more : List ℕ) → ⟦<Body<T> as DeserializableBody>⟧.spells b v more
        ↔ IsBody ⟦<AmqpValue<T> as DeserializeTerm>⟧.term ⟦<Data as DeserializeTerm>⟧.term ⟦<AmqpSequence<T> as DeserializeTerm>⟧.term b v more }
    ensures faults { (at : List ℕ) (e : ErrorOf) → ⟦<Body<T> as DeserializableBody>⟧.faults at e
        ↔ IsBodyFault ⟦<Data as DeserializeTerm>⟧.term ⟦<AmqpSequence<T> as DeserializeTerm>⟧.term at e }
    ensures exactly { IsReadExactly ⟦<Body<T> as Deserialize>⟧.reading ⟦<Body<T> as DeserializableBody>⟧.spells }
    ensures refused { IsRefusedFor ⟦<Body<T> as Deserialize>⟧.reading ⟦<Body<T> as DeserializableBody>⟧.faults }
{}

/// A section with a value is spelled by its term.
pub fn values_are_spelled<T: DeserializeTerm>()
    ensures spells { (b : List ℕ) (v : ValueOf T) (more : List ℕ) → ⟦<AmqpValue<T> as DeserializableBody>⟧.spells b v more
        ↔ IsTerm ⟦<AmqpValue<T> as DeserializeTerm>⟧.term b v more }
    ensures faults { (at : List ℕ) (e : ErrorOf) → ⟦<AmqpValue<T> as DeserializableBody>⟧.faults at e ↔ IsNoTerm at e }
{}

/// So is one with a list.
pub fn sequences_are_spelled<T: DeserializeTerm>()
    ensures spells { (b : List ℕ) (v : SequenceOf T) (more : List ℕ) → ⟦<AmqpSequence<T> as DeserializableBody>⟧.spells b v more
        ↔ IsTerm ⟦<AmqpSequence<T> as DeserializeTerm>⟧.term b v more }
    ensures faults { (at : List ℕ) (e : ErrorOf) → ⟦<AmqpSequence<T> as DeserializableBody>⟧.faults at e ↔ IsNoTerm at e }
{}

/// So is one with bytes.
pub fn data_are_spelled()
    ensures spells { (b : List ℕ) (v : DataOf) (more : List ℕ) → ⟦<Data as DeserializableBody>⟧.spells b v more
        ↔ IsTerm ⟦<Data as DeserializeTerm>⟧.term b v more }
    ensures faults { (at : List ℕ) (e : ErrorOf) → ⟦<Data as DeserializableBody>⟧.faults at e ↔ IsNoTerm at e }
{}

/// A batch that is a body isn't empty: it begins with one of its sections.
pub fn batches_are_bodies<T: BatchItem + DeserializeTerm>()
    ensures spells { (b : List ℕ) (v : TransparentVec T) (more : List ℕ) → ⟦<Batch<T> as DeserializableBody>⟧.spells b v more
        ↔ IsSection T.code (IsBatch T.code (IsTerm T.term)) b v more }
    ensures faults { (at : List ℕ) (e : ErrorOf) → ⟦<Batch<T> as DeserializableBody>⟧.faults at e
        ↔ IsSectionFault T.code (IsRunFault T.code T.term) at e }
{}

/// A body that may be absent is spelled where it is there.
pub fn optional_bodies_are_spelled<B: DeserializableBody>()
where
    Option<B>: Drop,
    ensures spells { (b : List ℕ) (v : OptionOf B) (more : List ℕ) → ⟦<Option<B> as DeserializableBody>⟧.spells b v more
        ↔ IsThere B.spells b v more }
    ensures faults { (at : List ℕ) (e : ErrorOf) → ⟦<Option<B> as DeserializableBody>⟧.faults at e ↔ B.faults at e }
{}

/// A message is read from the first n bytes of an input exactly if these are groups of sections, one after another: at most seven in any
/// order, of which the last of each kind counts, or each kind once at most and in the standard's order, to the end, if it is read strictly.
/// Its body is made of the last group of a body's sections, or takes its place. An input is refused for what begins after some whole groups,
/// or since they have no body. The law is for every body, also one of a type of the caller.
pub fn messages_are_spelled<B: FromBody>()
    ensures any { IsReadExactly ⟦<Message<B> as Deserialize>⟧.reading (IsMessage B.made B.Body.spells) }
    ensures refused { IsRefusedFor ⟦<Message<B> as Deserialize>⟧.reading (IsMessageFault B.made B.Body.spells B.Body.faults) }
    ensures strict { IsReadExactly ⟦<Strict<B> as Deserialize>⟧.reading (IsStrictMessage B.made B.Body.spells) }
    ensures strictly_refused { IsRefusedFor ⟦<Strict<B> as Deserialize>⟧.reading (IsStrictFault B.made B.Body.spells B.Body.faults) }
{}

/// The bytes of a message whose body is of any kind are its sections, one after another, each one whole term. What
/// `amqp_section_slices::split_section` returns of them is the first.
pub fn messages_are_sections<T: DeserializeTerm>()
    ensures any { (b : List ℕ) (v : _) (more : List ℕ) → IsMessage ⟦<Body<T> as FromBody>⟧.made
        ⟦<Body<T> as DeserializableBody>⟧.spells b v more
        → HasSections b more }
    ensures strict { (b : List ℕ) (v : _) (more : List ℕ) → IsStrictMessage ⟦<Body<T> as FromBody>⟧.made
        ⟦<Body<T> as DeserializableBody>⟧.spells b v more
        → HasSections b more }
    ensures next { (b : List ℕ) (c : ℕ) (cs more : List ℕ) (kind : SectionKind) (bytes rest : List ℕ) → AreSections b (c ∷ cs) more
        → BeginsWithSection (b ++ more) kind bytes rest → IsNextOf b c cs more kind bytes rest }
{}
