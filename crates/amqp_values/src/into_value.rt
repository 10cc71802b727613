//! Values of any kind made of what must be put in a box first (Part 1, section 1.6).
ghost use Rattle.std.specs.Prelude.{◌≡◌, IfOk, IfErr};
ghost use Rattle.amqp_wire.specs.declared.error.Error.TheVariants.{Memory};
ghost use Rattle.amqp_values.specs.declared.value.Value.{Value};
ghost use Rattle.amqp_values.specs.Boxed.{IsBoxed};

use crate::Value;
use amqp_described::Described;
use amqp_wire::Error;
use std::alloc::Global;

/// A conversion to `Value` that allocates.
pub trait IntoValue: Sized {
    // Holds of what it was and each value that `into_value` may make of it.
    ghost into_value_gives: { Self → Value → Type 0 };

    /// Converts it to a value of any kind.
    ///
    /// # Errors
    ///
    /// `Memory`, if an allocation fails: what was to be put in the value is dropped.
    fn into_value(self, alloc: Global) -> Result<Value, Error>
        ensures value { IfOk result (into_value_gives self) }
        ensures memory { IfErr result (λ e. e ≡ Memory) };
}

impl IntoValue for Described<Value> {
    ghost into_value_gives = { IsBoxed };

    fn into_value(self, alloc: Global) -> Result<Value, Error> {
        match Box::new(alloc, self) {
            Ok(boxed) => Ok(Value::Described(boxed)),
            Err(_) => Err(Error::Memory),
        }
    }
}
