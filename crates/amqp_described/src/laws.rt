//! What holds for described values in addition to the laws of every type. The functions do nothing; their contracts are proved.
ghost use Rattle.std.specs.Prelude.{◌≡◌, IsTrue};
ghost use Rattle.std.specs.Ordering.{nat_cmp, ordering_then};
ghost use Rattle.std.specs.declared.cmp.Ordering.TheVariants.{Less, Greater};
ghost use Rattle.amqp_wire.specs.declared.descriptor.Descriptor.TheVariants as descriptor;
ghost use Rattle.amqp_lookahead.specs.Members.{descriptor_of};
ghost use Rattle.amqp_described.specs.declared.described.Described.{Described};

use crate::Described;
use amqp_codec::{Canonical, DeserializeTerm};
use amqp_wire::{Descriptor, Symbol};

/// A described value is shortest (`is_least`) exactly if the value under the descriptor is.
pub fn texts_are_least<T: DeserializeTerm>()
    ensures described { ⟦<Described<T> as Canonical>⟧.is_least ≡ T.term.is_least }
{}

/// Descriptors are ordered with the names first, which are ordered as symbols, and then the codes.
pub fn descriptors_are_ordered()
    ensures names { (s t : _) → ⟦<Descriptor as Ord>⟧.cmp (descriptor.Name s) (descriptor.Name t) ≡ ⟦<Symbol as Ord>⟧.cmp s t }
    ensures name_first { (s : _) (n : _) → ⟦<Descriptor as Ord>⟧.cmp (descriptor.Name s) (descriptor.Code n) ≡ Less }
    ensures code_last { (n : _) (s : _) → ⟦<Descriptor as Ord>⟧.cmp (descriptor.Code n) (descriptor.Name s) ≡ Greater }
    ensures codes { (n m : _) → ⟦<Descriptor as Ord>⟧.cmp (descriptor.Code n) (descriptor.Code m) ≡ nat_cmp n m }
{}

/// Described values are ordered by their descriptors, and then by the values under them.
pub fn orders<T: Ord>()
    ensures described { (a b : Described T) → ⟦<Described<T> as Ord>⟧.cmp a b
        ≡ ordering_then (⟦<Descriptor as Ord>⟧.cmp a.descriptor b.descriptor) (T.cmp a.value b.value) }
{}

/// If clones of values are equal to them, a clone of a described value, as `Described::clone` makes it, is equal to it.
pub fn copies_are_equal<T: Clone + PartialEq>()
    ensures { ((v w : T) → T.is_clone v w → IsTrue (T.eq v w)) → (described copy : Described T)
        → descriptor_of copy.descriptor ≡ descriptor_of described.descriptor → T.is_clone described.value copy.value
        → IsTrue (⟦<Described<T> as PartialEq>⟧.eq described copy) }
{}
