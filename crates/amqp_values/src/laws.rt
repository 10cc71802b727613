//! What holds for values in addition to the laws of every type. The functions do nothing; their contracts are proved.
ghost use Rattle.std.specs.Prelude.{◌≡◌, true};

use crate::{Value, ValueMap};
use amqp_codec::Canonical;

/// No encoding of a value, or of a map of values, is shorter than its canonical text, if it holds no array.
pub fn texts_are_least()
    ensures value { ⟦<Value as Canonical>⟧.is_least ≡ true }
    ensures map { ⟦<ValueMap as Canonical>⟧.is_least ≡ true }
{}

/// By default a value is null.
pub fn defaults()
    ensures value { (v : _) → ⟦<Value as Default>⟧.is_default v → v ≡ Value.Null }
{}
