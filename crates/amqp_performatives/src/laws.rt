//! What holds for performatives in addition to the laws of every type. The function does nothing; its contract is proved.
ghost use Rattle.std.specs.Prelude.{◌≡◌, true};

use crate::{Begin, Close, Detach, Disposition, End, Flow, Open, Transfer};
use amqp_codec::Canonical;

/// For these types, no encoding of a value is shorter than its canonical text, if it holds no array.
pub fn texts_are_least()
    ensures open { ⟦<Open as Canonical>⟧.is_least ≡ true }
    ensures begin { ⟦<Begin as Canonical>⟧.is_least ≡ true }
    ensures flow { ⟦<Flow as Canonical>⟧.is_least ≡ true }
    ensures transfer { ⟦<Transfer as Canonical>⟧.is_least ≡ true }
    ensures disposition { ⟦<Disposition as Canonical>⟧.is_least ≡ true }
    ensures detach { ⟦<Detach as Canonical>⟧.is_least ≡ true }
    ensures end { ⟦<End as Canonical>⟧.is_least ≡ true }
    ensures close { ⟦<Close as Canonical>⟧.is_least ≡ true }
{}
