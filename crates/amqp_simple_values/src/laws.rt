//! What holds for simple values in addition to the laws of every type. The functions do nothing; their contracts are proved.
ghost use Rattle.std.specs.Prelude.{◌≡◌, true};

use crate::SimpleValue;
use amqp_codec::Canonical;

/// No encoding of a simple value is shorter than its canonical text, if it holds no array.
pub fn texts_are_least()
    ensures simple_value { ⟦<SimpleValue as Canonical>⟧.is_least ≡ true }
{}

/// By default a simple value is null.
pub fn defaults()
    ensures simple_value { (v : _) → ⟦<SimpleValue as Default>⟧.is_default v → v ≡ SimpleValue.Null }
{}
