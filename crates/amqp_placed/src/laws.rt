//! The laws of the places of errors: what stands there is at fault, over bytes alone. The functions do nothing; their contracts are proved.
ghost use Rattle.std.specs.Prelude.{◌≡◌, ◌<◌, ◌≤◌, ◌^◌, ℕ, Bool, List, ◌∷◌, length};
ghost use Rattle.amqp_model.specs.Term.{Container, array, Term, Descriptor};
ghost use Rattle.amqp_wire.specs.declared.error.Error.{Error};
ghost use Rattle.amqp_wire.specs.declared.error.Error.TheVariants.{Cut, DuplicateKey};
ghost use Rattle.amqp_wire.specs.declared.limits.Limits.{Limits};
ghost use Rattle.amqp_lengths.specs.Stands.{StandsAt};
ghost use Rattle.amqp_lookahead.specs.Members.{Member};
ghost use Rattle.amqp_decoder.specs.declared.frame.Place.{Place};
ghost use Rattle.amqp_decoder.specs.State.{State};
ghost use Rattle.amqp_decoder.specs.Items.{Row};
ghost use Rattle.amqp_decoder.specs.Primitives.{PrimitiveFault};
ghost use Rattle.amqp_decoder.specs.Containers.{Opens, OpenFault, CloseFault};
ghost use Rattle.amqp_decoder.specs.Described.{OpensDescribed, open_left, one_of_left};
ghost use Rattle.amqp_decoder.specs.Arrays.{array_left};
ghost use Rattle.amqp_decoder.specs.OtherSource.{IsByDepth};
ghost use Rattle.amqp_decoder.specs.Places.{Located, Here, At};
ghost use Rattle.amqp_codec.specs.Reading.{IsGreatest, IsFaultyAt, HasFaultAt};
ghost use Rattle.amqp_codec.specs.PrimitiveTypes.{Base};
ghost use Rattle.amqp_codec.specs.FieldReading.{FieldsFault};
ghost use Rattle.amqp_codec.specs.EitherMeaning.{EitherFault};
ghost use Rattle.amqp_sums.specs.Restricted.{IsUnknownError, RestrictedFault};
ghost use Rattle.amqp_sums.specs.Choices.{sum_of};
ghost use Rattle.amqp_containers.specs.Several.{multiple_faults, mandatory_faults};
ghost use Rattle.amqp_placed.specs.Shown.{FieldsShown, ChoicesShown, IsOfNoEnd};
ghost use Rattle.amqp_placed.specs.Facing.{IsShown, AreShown};

use amqp_attach::{Attach, Performative};
use amqp_codec::kernel::{Composite, FieldList};
use amqp_codec::{Deserialize, DeserializeTerm, MapKey, Symbol};
use amqp_containers::Array;
use amqp_delivery::{DeliveryState, Outcome};
use amqp_described::Described;
use amqp_lazy::LazyValue;
use amqp_lifetimes::LifetimePolicy;
use amqp_maps::OrderedMap;
use amqp_message_headers::{Header, MessageId, Properties};
use amqp_performatives::{Begin, Close, Detach, Disposition, End, Flow, Open, Transfer};
use amqp_primitives::{Binary, Dec32, Dec64, Dec128, Timestamp, Uuid};
use amqp_sasl::{SaslChallenge, SaslInit, SaslMechanisms, SaslOutcome, SaslResponse};
use amqp_simple_values::SimpleValue;
use amqp_sums::Sum;
use amqp_termini::{Coordinator, Source, Target, TargetArchetype};
use amqp_values::{Value, ValueMap};
use std::collections::BTreeMap;
use std::rc::Rc;

/// What stands at the place of an error is at fault, if the type's faults by that error are shown by bytes: in an input that begins with no
/// value of the type. `from_slice_located` returns such a place (`place`), and so does `from_reader_located`, if there are fewer than 2^64
/// bytes (`read`). Within limits of the caller, `Depth` and `Limit` are left out.
pub fn shown_faults_stand<T: DeserializeTerm>()
    ensures unlimited { (e : Error) → AreShown e T.term.faults.fault → (limits : Limits) (input : List ℕ) (at : ℕ)
        → IsGreatest limits → IsFaultyAt limits ⟦<T as Deserialize>⟧.reading input e at → StandsAt input e at }
    ensures limited { (e : Error) → (IsByDepth e → ⊥) → AreShown e T.term.faults.fault → (limits : Limits)
        (input : List ℕ) (at : ℕ) → IsFaultyAt limits ⟦<T as Deserialize>⟧.reading input e at → StandsAt input e at }
    ensures read { (e : Error) → (IsByDepth e → ⊥) → AreShown e T.term.faults.fault → (limits : Limits)
        (input : List ℕ) (at : ℕ) → at < 2 ^ 64 → length input < 2 ^ 64
        → HasFaultAt limits ⟦<T as Deserialize>⟧.reading input e at → StandsAt input e at }
{}

/// Each fault of a primitive is shown by bytes (Part 1, section 1.6).
pub fn primitives()
    ensures kind { (e : Error) (k : ℕ) → AreShown e (Here (PrimitiveFault k)) }
    ensures null { (e : Error) → AreShown e ⟦<() as DeserializeTerm>⟧.term.faults.fault }
    ensures boolean { (e : Error) → AreShown e ⟦<bool as DeserializeTerm>⟧.term.faults.fault }
    ensures ubyte { (e : Error) → AreShown e ⟦<u8 as DeserializeTerm>⟧.term.faults.fault }
    ensures ushort { (e : Error) → AreShown e ⟦<u16 as DeserializeTerm>⟧.term.faults.fault }
    ensures uint { (e : Error) → AreShown e ⟦<u32 as DeserializeTerm>⟧.term.faults.fault }
    ensures ulong { (e : Error) → AreShown e ⟦<u64 as DeserializeTerm>⟧.term.faults.fault }
    ensures byte { (e : Error) → AreShown e ⟦<i8 as DeserializeTerm>⟧.term.faults.fault }
    ensures short { (e : Error) → AreShown e ⟦<i16 as DeserializeTerm>⟧.term.faults.fault }
    ensures int { (e : Error) → AreShown e ⟦<i32 as DeserializeTerm>⟧.term.faults.fault }
    ensures long { (e : Error) → AreShown e ⟦<i64 as DeserializeTerm>⟧.term.faults.fault }
    ensures character { (e : Error) → AreShown e ⟦<char as DeserializeTerm>⟧.term.faults.fault }
    ensures string { (e : Error) → AreShown e ⟦<String as DeserializeTerm>⟧.term.faults.fault }
    ensures symbol { (e : Error) → AreShown e ⟦<Symbol as DeserializeTerm>⟧.term.faults.fault }
    ensures decimal32 { (e : Error) → AreShown e ⟦<Dec32 as DeserializeTerm>⟧.term.faults.fault }
    ensures decimal64 { (e : Error) → AreShown e ⟦<Dec64 as DeserializeTerm>⟧.term.faults.fault }
    ensures decimal128 { (e : Error) → AreShown e ⟦<Dec128 as DeserializeTerm>⟧.term.faults.fault }
    ensures timestamp { (e : Error) → AreShown e ⟦<Timestamp as DeserializeTerm>⟧.term.faults.fault }
    ensures uuid { (e : Error) → AreShown e ⟦<Uuid as DeserializeTerm>⟧.term.faults.fault }
    ensures binary { (e : Error) → AreShown e ⟦<Binary as DeserializeTerm>⟧.term.faults.fault }
{}

/// Each fault of a restricted type is shown by bytes: a number or a text of no value is a whole value.
pub fn restricted_types<A, V>()
    ensures { (e unknown : Error) (base : Base A) (table : V → A) → IsUnknownError unknown
        → AreShown e (RestrictedFault base unknown table) }
{}

/// The faults of an optional, boxed or counted value by an error are shown by bytes, if those of the value are; so are those of a value
/// behind a descriptor of its own (Part 1, section 1.2), and those of a list of values (section 1.6.22).
pub fn values_held<T: DeserializeTerm>()
    ensures option { (e : Error) → AreShown e T.term.faults.fault
        → AreShown e ⟦<Option<T> as DeserializeTerm>⟧.term.faults.fault }
    ensures boxed { (e : Error) → AreShown e T.term.faults.fault
        → AreShown e ⟦<Box<T> as DeserializeTerm>⟧.term.faults.fault }
    ensures counted { (e : Error) → AreShown e T.term.faults.fault
        → AreShown e ⟦<Rc<T> as DeserializeTerm>⟧.term.faults.fault }
    ensures described { (e : Error) → AreShown e T.term.faults.fault
        → AreShown e ⟦<Described<T> as DeserializeTerm>⟧.term.faults.fault }
    ensures list { (e : Error) → AreShown e T.term.faults.fault
        → AreShown e ⟦<Vec<T> as DeserializeTerm>⟧.term.faults.fault }
{}

/// The faults of an array of values by an error are shown by bytes, if those of the values are (Part 1, section 1.6.24).
pub fn arrays<T: DeserializeTerm>()
    ensures { (e : Error) → AreShown e T.term.faults.fault
        → AreShown e ⟦<Array<T> as DeserializeTerm>⟧.term.faults.fault }
{}

/// The faults of a field of several values by an error are shown by bytes, if those of one value are (Part 1, section 1.4): of any number,
/// and of at least one.
pub fn fields_of_several<T: DeserializeTerm>()
    ensures any_number { (e : Error) → AreShown e T.term.faults.fault
        → AreShown e (multiple_faults T.term).fault }
    ensures at_least_one { (e : Error) → AreShown e T.term.faults.fault
        → AreShown e (mandatory_faults T.term).fault }
{}

/// The faults of a value of any kind are shown by bytes, but for `DuplicateKey`.
pub fn values()
    ensures value { (e : Error) → (e ≡ DuplicateKey → ⊥)
        → AreShown e ⟦<Value as DeserializeTerm>⟧.term.faults.fault }
    ensures map { (e : Error) → (e ≡ DuplicateKey → ⊥)
        → AreShown e ⟦<ValueMap as DeserializeTerm>⟧.term.faults.fault }
    ensures simple { (e : Error) → (e ≡ DuplicateKey → ⊥)
        → AreShown e ⟦<SimpleValue as DeserializeTerm>⟧.term.faults.fault }
{}

/// The faults of a term of any kind whose bytes are kept are shown by bytes (Part 1, section 1.2), but for `Cut` and `Size`.
pub fn kept_terms()
    ensures { (e : Error) → IsOfNoEnd e → AreShown e ⟦<LazyValue as DeserializeTerm>⟧.term.faults.fault }
{}

/// The faults of the composites of the security layer are shown by bytes (Part 5, section 5.3.3).
pub fn security()
    ensures mechanisms { (e : Error) → AreShown e ⟦<SaslMechanisms as DeserializeTerm>⟧.term.faults.fault }
    ensures init { (e : Error) → AreShown e ⟦<SaslInit as DeserializeTerm>⟧.term.faults.fault }
    ensures challenge { (e : Error) → AreShown e ⟦<SaslChallenge as DeserializeTerm>⟧.term.faults.fault }
    ensures response { (e : Error) → AreShown e ⟦<SaslResponse as DeserializeTerm>⟧.term.faults.fault }
    ensures outcome { (e : Error) → AreShown e ⟦<SaslOutcome as DeserializeTerm>⟧.term.faults.fault }
{}

/// Each fault of a message's header, of its properties and of an identifier of a message is shown by bytes (Part 3, sections 3.2.1, 3.2.4
/// and 3.2.11 to 3.2.14).
pub fn message_headers()
    ensures header { (e : Error) → AreShown e ⟦<Header as DeserializeTerm>⟧.term.faults.fault }
    ensures properties { (e : Error) → AreShown e ⟦<Properties as DeserializeTerm>⟧.term.faults.fault }
    ensures identifier { (e : Error) → AreShown e ⟦<MessageId as DeserializeTerm>⟧.term.faults.fault }
{}

/// Where a described value begins an input, `Cut` isn't shown by bytes: what is cut is its descriptor, or what that describes. A
/// `LazyValue` places it there nevertheless, if the value is cut in its data.
pub fn described_values_begin_whole()
    ensures { (more : List ℕ) → StandsAt (0 ∷ more) Cut 0 → ⊥ }
{}

/// The faults of the performatives, and of the errors, delivery states, outcomes and termini that they hold, are shown by bytes (Part 2,
/// sections 2.7 and 2.8.14, and Part 3, sections 3.4 and 3.5). `DuplicateKey` is left out.
pub fn performatives()
    ensures error { (e : Error) → (e ≡ DuplicateKey → ⊥)
        → AreShown e ⟦<amqp_errors::Error as DeserializeTerm>⟧.term.faults.fault }
    ensures state { (e : Error) → (e ≡ DuplicateKey → ⊥)
        → AreShown e ⟦<DeliveryState as DeserializeTerm>⟧.term.faults.fault }
    ensures outcome { (e : Error) → (e ≡ DuplicateKey → ⊥)
        → AreShown e ⟦<Outcome as DeserializeTerm>⟧.term.faults.fault }
    ensures opening { (e : Error) → (e ≡ DuplicateKey → ⊥)
        → AreShown e ⟦<Open as DeserializeTerm>⟧.term.faults.fault }
    ensures beginning { (e : Error) → (e ≡ DuplicateKey → ⊥)
        → AreShown e ⟦<Begin as DeserializeTerm>⟧.term.faults.fault }
    ensures flow { (e : Error) → (e ≡ DuplicateKey → ⊥)
        → AreShown e ⟦<Flow as DeserializeTerm>⟧.term.faults.fault }
    ensures transfer { (e : Error) → (e ≡ DuplicateKey → ⊥)
        → AreShown e ⟦<Transfer as DeserializeTerm>⟧.term.faults.fault }
    ensures disposition { (e : Error) → (e ≡ DuplicateKey → ⊥)
        → AreShown e ⟦<Disposition as DeserializeTerm>⟧.term.faults.fault }
    ensures detach { (e : Error) → (e ≡ DuplicateKey → ⊥)
        → AreShown e ⟦<Detach as DeserializeTerm>⟧.term.faults.fault }
    ensures ending { (e : Error) → (e ≡ DuplicateKey → ⊥)
        → AreShown e ⟦<End as DeserializeTerm>⟧.term.faults.fault }
    ensures closing { (e : Error) → (e ≡ DuplicateKey → ⊥)
        → AreShown e ⟦<Close as DeserializeTerm>⟧.term.faults.fault }
    ensures attach { (e : Error) → (e ≡ DuplicateKey → ⊥)
        → AreShown e ⟦<Attach as DeserializeTerm>⟧.term.faults.fault }
    ensures performative { (e : Error) → (e ≡ DuplicateKey → ⊥)
        → AreShown e ⟦<Performative as DeserializeTerm>⟧.term.faults.fault }
    ensures source { (e : Error) → (e ≡ DuplicateKey → ⊥)
        → AreShown e ⟦<Source as DeserializeTerm>⟧.term.faults.fault }
    ensures target { (e : Error) → (e ≡ DuplicateKey → ⊥)
        → AreShown e ⟦<Target as DeserializeTerm>⟧.term.faults.fault }
    ensures coordinator { (e : Error) → (e ≡ DuplicateKey → ⊥)
        → AreShown e ⟦<Coordinator as DeserializeTerm>⟧.term.faults.fault }
    ensures lifetime { (e : Error) → (e ≡ DuplicateKey → ⊥)
        → AreShown e ⟦<LifetimePolicy as DeserializeTerm>⟧.term.faults.fault }
    ensures archetype { (e : Error) → (e ≡ DuplicateKey → ⊥)
        → AreShown e ⟦<TargetArchetype as DeserializeTerm>⟧.term.faults.fault }
{}

/// The faults of a value of one type or another by an error are shown by bytes, if those of both types are.
pub fn either_of_two<A: DeserializeTerm, B: DeserializeTerm>()
    ensures { (e : Error) (is_first : ℕ → Bool) → AreShown e A.term.faults.fault
        → AreShown e B.term.faults.fault
        → AreShown e (EitherFault is_first A.term.faults B.term.faults) }
{}

/// The faults of a map by an error are shown by bytes, if those of its keys and values are (Part 1, section 1.6.23); except `DuplicateKey`,
/// whose place may be behind the last pair.
pub fn maps<K: MapKey + Ord, V: DeserializeTerm>()
    ensures by_order { (e : Error) → (e ≡ DuplicateKey → ⊥) → AreShown e K.term.faults.fault
        → AreShown e V.term.faults.fault
        → AreShown e ⟦<BTreeMap<K, V> as DeserializeTerm>⟧.term.faults.fault }
    ensures as_read { (e : Error) → (e ≡ DuplicateKey → ⊥) → AreShown e K.term.faults.fault
        → AreShown e V.term.faults.fault
        → AreShown e ⟦<OrderedMap<K, V> as DeserializeTerm>⟧.term.faults.fault }
{}

/// No key begins at the end of an input. So `DuplicateKey` isn't shown by bytes if it is placed there, behind the last pair of a map.
pub fn keys_begin_inside()
    ensures { (input : List ℕ) → StandsAt input DuplicateKey (length input) → ⊥ }
{}

/// The faults of a list of fields by an error are shown by bytes, if those of its fields are (Part 1, section 1.4).
pub fn field_lists<L: FieldList>()
    ensures { (e : Error) → FieldsShown e L.list.fields → AreShown e (FieldsFault L.list.fields) }
{}

/// The faults of a composite by an error are shown by bytes, if those of its fields are (Part 1, section 1.4).
pub fn composites<C: Composite>()
    ensures { (e : Error) → FieldsShown e C.list.fields
        → AreShown e ⟦<C as DeserializeTerm>⟧.term.faults.fault }
{}

/// The faults of a sum of composites by an error are shown by bytes, if those of its members' fields are.
pub fn sums<S: Sum>()
    ensures { (e : Error) → ChoicesShown e S.sum.choices → AreShown e (sum_of S.sum).faults.fault }
{}

/// Each fault of a list or map that isn't opened is shown by bytes (Part 1, sections 1.6.22 and 1.6.23). So is one that stands in it, after
/// some items, and one at its end.
pub fn containers()
    ensures unopened { (e : Error) (kind : Container) → (kind ≡ array → ⊥) → AreShown e (Here (OpenFault kind)) }
    ensures inside { (kind : Container) → (kind ≡ array → ⊥)
        → (st first mid : State) (n : ℕ) (ts : List Term) (b : List ℕ) (f : Located)
        → Opens kind st n first → Row first ts b mid → length ts ≤ n → IsShown mid f → IsShown st f }
    ensures unclosed { (kind : Container) → (kind ≡ array → ⊥)
        → (place : Place) (st first mid : State) (n : ℕ) (ts : List Term)
        (b : List ℕ) (f : Located) → Opens kind st n first → Row first ts b mid → length ts ≤ n → Here (CloseFault place) mid f
        → IsShown st f }
{}

/// Each fault of an array that isn't opened is shown by bytes (Part 1, section 1.2.4).
pub fn unopened_arrays()
    ensures { (e : Error) → AreShown e (At array_left) }
{}

/// Each fault of a described value that isn't opened, or whose descriptor is another's, is shown by bytes (Part 1, section 1.5). So is one
/// of what the descriptor describes.
pub fn descriptions()
    ensures unopened { (e : Error) → AreShown e (At open_left) }
    ensures no_member { (e : Error) (members : List Member) → AreShown e (At (one_of_left members)) }
    ensures inside { (st inner : State) (d : Descriptor) (f : Located) → OpensDescribed st d inner
        → IsShown inner f → IsShown st f }
{}
