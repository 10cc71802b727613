//! What holds for annotations and of their keys in addition to the laws of every type. The functions do nothing; their contracts are proved.
ghost use Rattle.std.specs.Prelude.{◌≡◌, true};
ghost use Rattle.std.specs.Ordering.{nat_cmp};
ghost use Rattle.std.specs.declared.cmp.Ordering.TheVariants.{Less, Greater};
ghost use Rattle.amqp_annotations.specs.declared.owned_key.OwnedKey.{OwnedKey};
ghost use Rattle.amqp_annotations.specs.declared.owned_key.OwnedKey.TheVariants as key;
ghost use Rattle.amqp_annotations.specs.declared.borrowed_key.BorrowedKey.{BorrowedKey};
ghost use Rattle.amqp_annotations.specs.OwnedKeys.{owned_primitive};
ghost use Rattle.amqp_annotations.specs.BorrowedKeys.{borrowed_primitive};

use crate::{Annotations, BorrowedKey, OwnedKey};
use amqp_codec::{Canonical, Symbol};

/// For these types, no encoding of a value is shorter than its canonical text, if it holds no array.
pub fn texts_are_least()
    ensures owned_key { ⟦<OwnedKey as Canonical>⟧.is_least ≡ true }
    ensures annotations { ⟦<Annotations as Canonical>⟧.is_least ≡ true }
{}

/// Borrowed keys are equal, and are ordered, as the owned keys of the same symbols and numbers are.
pub fn borrowed_keys_compare_as_owned()
    ensures equality { (v w : OwnedKey) (x y : BorrowedKey) → borrowed_primitive x ≡ owned_primitive v
        → borrowed_primitive y ≡ owned_primitive w
        → ⟦<BorrowedKey<'static> as PartialEq>⟧.eq x y ≡ ⟦<OwnedKey as PartialEq>⟧.eq v w }
    ensures order { (v w : OwnedKey) (x y : BorrowedKey) → borrowed_primitive x ≡ owned_primitive v
        → borrowed_primitive y ≡ owned_primitive w
        → ⟦<BorrowedKey<'static> as Ord>⟧.cmp x y ≡ ⟦<OwnedKey as Ord>⟧.cmp v w }
{}

/// Symbols come before numbers. Symbols are ordered by their bytes, and numbers as numbers.
pub fn orders()
    ensures symbols { (s t : _) → ⟦<OwnedKey as Ord>⟧.cmp (key.Symbol s) (key.Symbol t) ≡ ⟦<Symbol as Ord>⟧.cmp s t }
    ensures symbol_first { (s : _) (n : _) → ⟦<OwnedKey as Ord>⟧.cmp (key.Symbol s) (key.Ulong n) ≡ Less }
    ensures number_last { (n : _) (s : _) → ⟦<OwnedKey as Ord>⟧.cmp (key.Ulong n) (key.Symbol s) ≡ Greater }
    ensures numbers { (n m : _) → ⟦<OwnedKey as Ord>⟧.cmp (key.Ulong n) (key.Ulong m) ≡ nat_cmp n m }
{}
