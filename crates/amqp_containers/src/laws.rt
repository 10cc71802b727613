//! What holds for arrays in addition to the laws of every type. The functions do nothing; their contracts are proved.
ghost use Rattle.std.specs.Prelude.{◌≡◌, true, IsTrue};
ghost use Rattle.std.specs.List.{AllZip};
ghost use Rattle.std.specs.Cmp.Lexicographic.{slice_cmp};
ghost use Rattle.amqp_containers.specs.declared.array.Array.{Array};
ghost use Rattle.amqp_containers.specs.MultipleFields.{multiple, mandatory_multiple};
ghost use Rattle.amqp_containers.specs.Several.{AreLeaves};

use crate::Array;
use amqp_codec::{Canonical, DeserializeTerm};

/// A clone has as many items, and they are clones of the items, in order.
pub fn items_are_copied<T: Clone>()
    ensures array { (array copy : Array T) → ⟦<Array<T> as Clone>⟧.is_clone array copy → AllZip T.is_clone array.0.items copy.0.items }
{}

/// If clones of items are equal to them, a clone of what holds them is equal to it.
#[tactic(auto, using(crate::proofs::CopiesEqual::equal_all_zip))]
pub fn copies_are_equal<T: Clone + PartialEq>()
    ensures array { ((x y : T) → T.is_clone x y → IsTrue (T.eq x y)) → (array copy : Array T) → ⟦<Array<T> as Clone>⟧.is_clone array copy
        → IsTrue (⟦<Array<T> as PartialEq>⟧.eq array copy) }
{}

/// An array is shortest (`is_least`) exactly if its items are; but that says nothing about a text with an array in it. A field of several
/// values is always shortest. It is null if it has none, and otherwise its values are in an array.
pub fn texts_are_least<T: DeserializeTerm>()
    ensures array { ⟦<Array<T> as Canonical>⟧.is_least ≡ T.term.is_least }
    ensures multiple { (n : T.term.is_never_null ≡ true) (s : T.term.ignores_standing ≡ true) (l : AreLeaves T.term)
        → (multiple T.term n s l).laws.is_least ≡ true }
    ensures mandatory_multiple { (n : T.term.is_never_null ≡ true) (s : T.term.ignores_standing ≡ true) (l : AreLeaves T.term)
        → (mandatory_multiple T.term n s l).laws.is_least ≡ true }
{}

/// Arrays are ordered by the first values that differ, and an array comes before a longer one that begins with it.
pub fn orders<T: Ord>()
    ensures array { (a b : Array T) → ⟦<Array<T> as Ord>⟧.cmp a b ≡ slice_cmp T.cmp a.0.items b.0.items }
{}
