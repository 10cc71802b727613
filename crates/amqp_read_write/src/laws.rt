//! The laws of every one-term type, about the encodings of its values.
ghost use Rattle.std.specs.Prelude.{◌≡◌, ◌≤◌, ◌↔◌, ℕ, Bool, true, false, ◌&&◌, List, ◌++◌, length};
ghost use Rattle.amqp_model.specs.Term.{Refusal, too_large, Term};
ghost use Rattle.amqp_model.specs.Spelling.{IsSpelling};
ghost use Rattle.amqp_model.specs.Measures.{nest, weight};
ghost use Rattle.amqp_model.specs.Ranges.{Everywhere, IsNoArray, IsBytes};
ghost use Rattle.amqp_model.specs.Refusals.{Refuses};
ghost use Rattle.amqp_model.specs.FieldType.{normal};
ghost use Rattle.amqp_wire.specs.declared.error.Error.{Error};
ghost use Rattle.amqp_wire.specs.declared.limits.Limits.{Limits};
ghost use Rattle.amqp_wire.specs.Limits.{limit_of};
ghost use Rattle.amqp_encoder.specs.Passes.{row_text};
ghost use Rattle.amqp_encoder.specs.Refused.{TermHasCause};
ghost use Rattle.std.specs.Bool.{Decides};
ghost use Rattle.amqp_codec.specs.Spelled.{IsSpelled, IsWritable, written};
ghost use Rattle.amqp_codec.specs.Keys.{ComparesTexts};
ghost use Rattle.amqp_codec.specs.Written.{AreWritable, AreUnwritable};
ghost use Rattle.std.specs.Prelude.{take};
ghost use Rattle.amqp_decoder.specs.State.{State, Has};
ghost use Rattle.amqp_decoder.specs.Reading.{PeeksCode};
ghost use Rattle.amqp_decoder.specs.Places.{Located};
ghost use Rattle.amqp_codec.specs.EitherMeaning.{EitherFault};
ghost use Rattle.amqp_codec.specs.Reading.{BeginsWith, BeginsWithin, IsUnreadableWithin};

use amqp_codec::{Canonical, Deserialize, DeserializeTerm, MapKey, Symbol};
use std::collections::BTreeMap;
use std::rc::Rc;

/// What is read from a prefix of an input is what that prefix encodes, whatever comes after it; and nothing after it is looked at. So an
/// error which means that the bytes are no term is returned only for such bytes (`IsUnreadable::unspelled`).
pub fn reading_is_spelling<T: DeserializeTerm>()
    ensures spelled { (input : List ℕ) (v : T) (n : ℕ) → BeginsWith ⟦<T as Deserialize>⟧.reading input v n
        → (n ≤ length input) × IsSpelled T.term (take n input) v }
    ensures read { (b more : List ℕ) (v : T) → IsSpelled T.term b v → BeginsWith ⟦<T as Deserialize>⟧.reading (b ++ more) v (length b) }
    ensures no_more { ⟦<T as Deserialize>⟧.reading.looks_on ≡ false }
    ensures one_term { ⟦<T as Deserialize>⟧.reading.one_term ≡ true }
{}

/// Within limits of the caller, a value is read from the first n bytes exactly if it is read from them without limits, and they keep the
/// limits. They do if n is at most the limit on bytes, and the term that they encode nests no deeper and takes no more items than the
/// limits allow. Each value is an item, a described value with its descriptor. In an array, each item takes one more for each descriptor
/// that it shares, and for each whole 32 bytes of its name.
pub fn limits_bound_reading<T: DeserializeTerm>()
    ensures { (limits : Limits) (input : List ℕ) (v : T) (n : ℕ) → BeginsWithin limits ⟦<T as Deserialize>⟧.reading input v n
        ↔ (BeginsWith ⟦<T as Deserialize>⟧.reading input v n × Has (limit_of limits.bytes) n
        × ((t : Term) → IsSpelling (take n input) t → (nest t ≤ limits.nesting) × Has (limit_of limits.items) (weight t false))) }
{}

/// The seed by which the keys of maps are hashed changes no result. Within limits that differ only in it, the same values are read, and the
/// same faults are reported.
pub fn seeds_change_nothing<T: Deserialize>()
    ensures read { (limits : Limits) (seed : ℕ) (input : List ℕ) (v : T) (n : ℕ) → BeginsWithin limits T.reading input v n
        ↔ BeginsWithin (record limits { hash_seed = seed }) T.reading input v n }
    ensures refused { (limits : Limits) (seed : ℕ) (input : List ℕ) (e : Error) → IsUnreadableWithin limits T.reading input e
        ↔ IsUnreadableWithin (record limits { hash_seed = seed }) T.reading input e }
{}

/// What `to_vec`, `encoded_len` and `append_to_vec` say about a value's canonical terms, they say about the canonical term and text in the
/// laws below. If the value can't be written, the model refuses it for that reason, or its text is longer than the machine counts.
pub fn one_term_is_written<T: DeserializeTerm>()
    ensures is_value { (v : T) → T.writing.is_value v → T.term.is_value v }
    ensures text { (v : T) → row_text (T.writing.canons v) ≡ written T.term v }
    ensures writable { (v : T) → AreWritable (T.writing.canons v) → IsWritable T.term v }
    ensures refused { (v : T) (e : Error) → T.writing.is_value v → AreUnwritable (T.writing.canons v) e → TermHasCause (T.term.canon v) e }
{}

/// For a one-term type, the conditions in the contract of `canonical_text` hold. Anything may follow a text, each value is kept, and each
/// lasts. The type is shortest (`is_least`) if its terms are.
pub fn terms_are_read_again<T: DeserializeTerm>()
    ensures follows { (more : List ℕ) → ⟦<T as Canonical>⟧.follows more }
    ensures kept { (v : T) → ⟦<T as Canonical>⟧.kept v }
    ensures lasts { (v : T) → ⟦<T as Canonical>⟧.lasts v }
    ensures least { ⟦<T as Canonical>⟧.is_least ≡ T.term.is_least }
{}

/// No input has two prefixes that encode values, and no prefix encodes two values.
pub fn one_value<T: DeserializeTerm>()
    ensures value { (b c x y : List ℕ) (v w : T) → IsSpelled T.term b v → IsSpelled T.term c w → b ++ x ≡ c ++ y → T.term.same v w }
    ensures front { (b c x y : List ℕ) (v w : T) → IsSpelled T.term b v → IsSpelled T.term c w → b ++ x ≡ c ++ y → b ≡ c }
{}

/// What was read can be written, unless its size is above 32 bits.
pub fn what_is_read_is_writable<T: DeserializeTerm>()
    ensures { (b : List ℕ) (v : T) (r : Refusal) → IsSpelled T.term b v → Refuses r (T.term.canon v) → r ≡ too_large }
{}

/// The canonical text of a value that can be written is read as the value, normalised. What was read is its own normal value.
pub fn canonical_text_is_read_again<T: DeserializeTerm>()
    ensures again { (v : T) → T.term.is_value v → IsWritable T.term v → IsSpelled T.term (written T.term v) (normal T.term.norm v) }
    ensures own { (b : List ℕ) (v : T) → IsSpelled T.term b v → T.term.same (normal T.term.norm v) v }
    ensures values { (b : List ℕ) (v : T) → IsSpelled T.term b v → T.term.is_value v }
{}

/// Values that are the same have one canonical text. If two values were read and can be written, and have one canonical text, they are the
/// same. What the canonical text of a value that can be written is read as has that text again.
pub fn one_text_for_one_value<T: DeserializeTerm>()
    ensures same { (v w : T) → T.term.same v w → written T.term v ≡ written T.term w }
    ensures apart { (b c : List ℕ) (v w : T) → IsSpelled T.term b v → IsSpelled T.term c w → IsWritable T.term v → IsWritable T.term w
        → written T.term v ≡ written T.term w → T.term.same v w }
    ensures unchanged { (v w : T) → T.term.is_value v → IsWritable T.term v → IsSpelled T.term (written T.term v) w
        → written T.term w ≡ written T.term v }
{}

/// Two keys are equal exactly if they are one value. So if they can be written, they are equal exactly if their canonical texts are; and equal keys
/// have the same hash.
pub fn keys_are_compared_by_their_texts<K: MapKey>()
    ensures values { (v w : K) → Decides (K.eq v w) (K.term.same v w) }
    ensures texts { ComparesTexts K.term K.eq }
    ensures hashes { (v w : K) → K.eq v w ≡ true → K.hash_input v ≡ K.hash_input w }
{}

/// For a shortest type, no encoding of a value is shorter than its canonical text, if the value's canonical term holds no array.
pub fn canonical_text_is_least<T: DeserializeTerm>()
    ensures { T.term.is_least ≡ true → (b : List ℕ) (v : T) → IsBytes b → Everywhere IsNoArray (T.term.canon v) → IsSpelled T.term b v
        → length (written T.term v) ≤ length b }
{}

/// These types are shortest (`is_least`), so `canonical_text_is_least` applies to them.
pub fn texts_are_least()
    ensures null { ⟦<() as Canonical>⟧.is_least ≡ true }
    ensures boolean { ⟦<bool as Canonical>⟧.is_least ≡ true }
    ensures ubyte { ⟦<u8 as Canonical>⟧.is_least ≡ true }
    ensures ushort { ⟦<u16 as Canonical>⟧.is_least ≡ true }
    ensures uint { ⟦<u32 as Canonical>⟧.is_least ≡ true }
    ensures ulong { ⟦<u64 as Canonical>⟧.is_least ≡ true }
    ensures byte { ⟦<i8 as Canonical>⟧.is_least ≡ true }
    ensures short { ⟦<i16 as Canonical>⟧.is_least ≡ true }
    ensures int { ⟦<i32 as Canonical>⟧.is_least ≡ true }
    ensures long { ⟦<i64 as Canonical>⟧.is_least ≡ true }
    ensures character { ⟦<char as Canonical>⟧.is_least ≡ true }
    ensures string { ⟦<String as Canonical>⟧.is_least ≡ true }
    ensures symbol { ⟦<Symbol as Canonical>⟧.is_least ≡ true }
{}

/// A type made of other types is shortest exactly if they are.
pub fn texts_of_parts_are_least<K: MapKey + Ord, T: DeserializeTerm>()
    ensures option { ⟦<Option<T> as Canonical>⟧.is_least ≡ T.term.is_least }
    ensures boxed { ⟦<Box<T> as Canonical>⟧.is_least ≡ T.term.is_least }
    ensures counted { ⟦<Rc<T> as Canonical>⟧.is_least ≡ T.term.is_least }
    ensures list { ⟦<Vec<T> as Canonical>⟧.is_least ≡ T.term.is_least }
    ensures map { ⟦<BTreeMap<K, T> as Canonical>⟧.is_least ≡ (K.term.is_least && T.term.is_least) }
{}

/// A sum of two types that are distinguished by the first code reports a fault of the type that the code selects, and of no other.
pub fn faults_of_a_sum<A: DeserializeTerm, B: DeserializeTerm>()
    ensures first { (is_first : ℕ → Bool) (st mid : State) (c : ℕ) (e : Located) → PeeksCode st c mid → is_first c ≡ true
        → EitherFault is_first A.term.faults B.term.faults st e → A.term.faults.fault mid e }
    ensures second { (is_first : ℕ → Bool) (st mid : State) (c : ℕ) (e : Located) → PeeksCode st c mid → is_first c ≡ false
        → EitherFault is_first A.term.faults B.term.faults st e → B.term.faults.fault mid e }
{}

/// A value has at most as many values in it as its encoding has bytes.
pub fn count_is_bounded<T: DeserializeTerm>()
    ensures { (b : List ℕ) (v : T) → IsSpelled T.term b v → T.term.count v ≤ length b }
{}
