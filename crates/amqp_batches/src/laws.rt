//! What holds for values in a row in addition to the laws of every type. The functions do nothing; their contracts are proved.
ghost use Rattle.std.specs.Prelude.{◌≡◌, ◌↔◌, ℕ, List, IsTrue, take};
ghost use Rattle.std.specs.List.{AllZip};
ghost use Rattle.std.specs.Cmp.Lexicographic.{slice_cmp};
ghost use Rattle.amqp_batches.specs.declared.transparent_vec.TransparentVec.{TransparentVec};
ghost use Rattle.amqp_batches.specs.Transparent.{vec_in};
ghost use Rattle.amqp_batches.specs.Bounds.{AreAllowed};
ghost use Rattle.amqp_codec.specs.Reading.{BeginsWithin, BeginsWith};
ghost use Rattle.amqp_decoder.specs.State.{Has};
ghost use Rattle.amqp_wire.specs.declared.limits.Limits.{Limits};
ghost use Rattle.amqp_wire.specs.Limits.{limit_of};

use crate::run::BatchItem;
use crate::transparent_vec::TransparentVec;
use amqp_codec::{Deserialize, DeserializeTerm};
use std::ops::Deref;

/// A clone has as many values, and they are clones of the values, in order.
pub fn values_are_copied<T: Clone>()
    ensures { (run copy : TransparentVec T) → ⟦<TransparentVec<T> as Clone>⟧.is_clone run copy
        → AllZip T.is_clone (vec_in run).items (vec_in copy).items }
{}

/// If clones of values are equal to them, a clone of what holds them is equal to it.
#[tactic(auto, using(amqp_containers::proofs::CopiesEqual::equal_all_zip))]
pub fn copies_are_equal<T: Clone + PartialEq>()
    ensures { ((x y : T) → T.is_clone x y → IsTrue (T.eq x y)) → (run copy : TransparentVec T)
        → ⟦<TransparentVec<T> as Clone>⟧.is_clone run copy → IsTrue (⟦<TransparentVec<T> as PartialEq>⟧.eq run copy) }
{}

/// They are ordered by the first values that differ, and a row comes before a longer one that begins with it.
pub fn orders<T: Ord>()
    ensures { (a b : _) (v w : _) → ⟦<TransparentVec<T> as Deref>⟧.deref_gives a v
        → ⟦<TransparentVec<T> as Deref>⟧.deref_gives b w → ⟦<TransparentVec<T> as Ord>⟧.cmp a b ≡ slice_cmp T.cmp v.items w.items }
{}

/// Within limits of the caller, a batch is read from the first n bytes exactly if it is read from them without limits, and they keep the
/// limits. They do if n is at most the limit on bytes, and their sections nest no deeper and have together no more items than the limits
/// allow. A described value is one with its descriptor.
pub fn limits_bound_batches<T: BatchItem + DeserializeTerm>()
    ensures within { (limits : Limits) (input : List ℕ) (run : TransparentVec T) (n : ℕ)
        → BeginsWithin limits ⟦<TransparentVec<T> as Deserialize>⟧.reading input run n
        ↔ (BeginsWith ⟦<TransparentVec<T> as Deserialize>⟧.reading input run n × Has (limit_of limits.bytes) n
        × AreAllowed limits (take n input)) }
{}
