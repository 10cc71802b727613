//! What holds for maps in addition to the laws of every type. The functions do nothing; their contracts are proved.
ghost use Rattle.std.specs.Prelude.{◌≡◌, ◌&&◌, List, IsTrue};

use crate::OrderedMap;
use amqp_codec::{Canonical, DeserializeTerm, MapKey};
use std::hash::Hash;

/// A map is shortest (`is_least`) exactly if its keys and its values are.
pub fn texts_are_least<K: MapKey, V: DeserializeTerm>()
    ensures map { ⟦<OrderedMap<K, V> as Canonical>⟧.is_least ≡ (K.term.is_least && V.term.is_least) }
{}

/// If clones of keys and of values are equal to them, a clone of a map is equal to the map.
pub fn copies_are_equal<K: Eq + Hash + Clone, V: Clone + PartialEq>()
    ensures { ((k l : K) → K.is_clone k l → IsTrue (K.eq k l)) → ((v w : V) → V.is_clone v w → IsTrue (V.eq v w))
        → (map copy : List (K × V)) → ⟦<OrderedMap<K, V> as Clone>⟧.is_clone map copy
        → IsTrue (⟦<OrderedMap<K, V> as PartialEq>⟧.eq map copy) }
{}
