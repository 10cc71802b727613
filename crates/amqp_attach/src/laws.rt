//! What holds for these types in addition to the laws of every type. The function does nothing; its contract is proved.
ghost use Rattle.std.specs.Prelude.{◌≡◌, true};

use crate::{Attach, Performative, Unsettled};
use amqp_codec::Canonical;

/// For these types, no encoding of a value is shorter than its canonical text, if it holds no array.
pub fn texts_are_least()
    ensures attach { ⟦<Attach as Canonical>⟧.is_least ≡ true }
    ensures performative { ⟦<Performative as Canonical>⟧.is_least ≡ true }
    ensures unsettled { ⟦<Unsettled as Canonical>⟧.is_least ≡ true }
{}
