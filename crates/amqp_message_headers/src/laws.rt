//! What holds for headers and properties in addition to the laws of every type. The functions do nothing; their contracts are proved.
ghost use Rattle.std.specs.Prelude.{◌≡◌, true, false, IsTrue, Option};
ghost use Rattle.std.specs.Ordering.{nat_cmp};
ghost use Rattle.std.specs.declared.cmp.Ordering.TheVariants.{Less};
ghost use Rattle.amqp_message_headers.specs.declared.message_id.MessageId.TheVariants as id;

use crate::{Header, MESSAGE_FORMAT, MessageId, Priority, Properties};
use amqp_codec::{Canonical, Deserialize, Symbol};
use amqp_primitives::{Binary, Timestamp, Uuid};

/// A header and a priority are read without allocating, so `from_slice` never returns `Memory` for them.
pub fn reading_takes_no_memory()
    ensures header { ⟦<Header as Deserialize>⟧.reading.takes_memory ≡ false }
    ensures priority { ⟦<Priority as Deserialize>⟧.reading.takes_memory ≡ false }
{}

/// For these types, no encoding of a value is shorter than its canonical text.
pub fn texts_are_least()
    ensures header { ⟦<Header as Canonical>⟧.is_least ≡ true }
    ensures priority { ⟦<Priority as Canonical>⟧.is_least ≡ true }
    ensures message_id { ⟦<MessageId as Canonical>⟧.is_least ≡ true }
    ensures properties { ⟦<Properties as Canonical>⟧.is_least ≡ true }
{}

/// The defaults of the standard.
pub fn defaults()
    ensures priority { (v : _) → ⟦<Priority as Default>⟧.is_default v → v.0 ≡ 4 }
{}

/// Priorities are ordered as their numbers.
pub fn orders()
    ensures priority { (a b : _) → ⟦<Priority as Ord>⟧.cmp a b ≡ nat_cmp a.0 b.0 }
{}

/// Identifiers are ordered as the enum's variants are: numbers, identifiers of 16 bytes, bytes, texts. Two of one variant are ordered as
/// their contents.
pub fn identifiers_are_ordered()
    ensures numbers { (x y : _) → ⟦<MessageId as Ord>⟧.cmp (id.Ulong x) (id.Ulong y) ≡ nat_cmp x y }
    ensures uuids { (x y : _) → ⟦<MessageId as Ord>⟧.cmp (id.Uuid x) (id.Uuid y) ≡ ⟦<Uuid as Ord>⟧.cmp x y }
    ensures binaries { (x y : _) → ⟦<MessageId as Ord>⟧.cmp (id.Binary x) (id.Binary y) ≡ ⟦<Binary as Ord>⟧.cmp x y }
    ensures strings { (x y : _) → ⟦<MessageId as Ord>⟧.cmp (id.String x) (id.String y) ≡ ⟦<String as Ord>⟧.cmp x y }
    ensures number_before_uuid { (x y : _) → ⟦<MessageId as Ord>⟧.cmp (id.Ulong x) (id.Uuid y) ≡ Less }
    ensures number_before_binary { (x y : _) → ⟦<MessageId as Ord>⟧.cmp (id.Ulong x) (id.Binary y) ≡ Less }
    ensures number_before_string { (x y : _) → ⟦<MessageId as Ord>⟧.cmp (id.Ulong x) (id.String y) ≡ Less }
    ensures uuid_before_binary { (x y : _) → ⟦<MessageId as Ord>⟧.cmp (id.Uuid x) (id.Binary y) ≡ Less }
    ensures uuid_before_string { (x y : _) → ⟦<MessageId as Ord>⟧.cmp (id.Uuid x) (id.String y) ≡ Less }
    ensures binary_before_string { (x y : _) → ⟦<MessageId as Ord>⟧.cmp (id.Binary x) (id.String y) ≡ Less }
{}

/// If clones of values are equal to them, a clone of an optional value is equal to it.
pub fn copies_of_options_are_equal<T: Clone + PartialEq>()
    ensures { ((v w : T) → T.is_clone v w → IsTrue (T.eq v w)) → (v copy : Option T) → ⟦<Option<T> as Clone>⟧.is_clone v copy
        → IsTrue (⟦<Option<T> as PartialEq>⟧.eq v copy) }
{}

// A clone of an identifier is equal to it.
fn copies_of_identifiers_are_equal()
    ensures { (v copy : _) → ⟦<MessageId as Clone>⟧.is_clone v copy → IsTrue (⟦<MessageId as PartialEq>⟧.eq v copy) }
{}

/// A clone of each of these is equal to what it was made of.
pub fn copies_are_equal()
    ensures header { (v copy : _) → ⟦<Header as Clone>⟧.is_clone v copy → IsTrue (⟦<Header as PartialEq>⟧.eq v copy) }
    ensures message_id { (v copy : _) → ⟦<MessageId as Clone>⟧.is_clone v copy → IsTrue (⟦<MessageId as PartialEq>⟧.eq v copy) }
    ensures properties { (v copy : _) → ⟦<Properties as Clone>⟧.is_clone v copy → IsTrue (⟦<Properties as PartialEq>⟧.eq v copy) }
{
    copies_of_identifiers_are_equal();
    copies_of_options_are_equal::<MessageId>();
    copies_of_options_are_equal::<Binary>();
    copies_of_options_are_equal::<String>();
    copies_of_options_are_equal::<Symbol>();
    copies_of_options_are_equal::<Timestamp>();
    copies_of_options_are_equal::<u32>();
}

/// The constants of the standard.
pub fn constants()
    ensures message_format { MESSAGE_FORMAT ≡ 0 }
{}
