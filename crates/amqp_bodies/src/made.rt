//! Bodies of any kind made of what they hold (Part 3, sections 3.2.6 to 3.2.8).
ghost use Rattle.std.specs.Prelude.{◌≡◌, ◌∷◌, [], Some, IfOk, IfErr};
ghost use Rattle.amqp_wire.specs.declared.error.Error.TheVariants.{Memory};
ghost use Rattle.amqp_bodies.specs.declared.body.Body.TheVariants as body_of;
ghost use Rattle.amqp_bodies.specs.Members.{body_data, body_sequences};

use crate::body::Body;
use amqp_batches::Batch;
use amqp_sections::{AmqpSequence, AmqpValue, Data};
use amqp_values::Value;
use amqp_wire::Error;
use std::alloc::Global;

/// Makes the body that is this value.
impl<T> From<T> for Body<T> {
    ghost from_gives = { λ value body. body ≡ body_of.Value (record { 0 = value }) };

    fn from(value: T) -> Body<T> {
        Body::Value(AmqpValue(value))
    }
}

/// Makes the body that is this section.
impl<T> From<AmqpValue<T>> for Body<T> {
    ghost from_gives = { λ value body. body ≡ body_of.Value value };

    fn from(value: AmqpValue<T>) -> Body<T> {
        Body::Value(value)
    }
}

impl<T: Drop> Body<T> {
    /// Returns the body that is one sequence, of these values. The only error is `Memory`.
    pub fn from_items(values: Vec<T>, alloc: Global) -> Result<Body<T>, Error>
        ensures sequence { IfOk result (λ body. body_sequences body ≡ Some (values ∷ [])) }
        ensures memory { IfErr result (λ e. e ≡ Memory) }
    {
        Body::from_sequence(AmqpSequence(values), alloc)
    }

    /// Returns the body that is this sequence. The only error is `Memory`.
    pub fn from_sequence(sequence: AmqpSequence<T>, alloc: Global) -> Result<Body<T>, Error>
        ensures sequence { IfOk result (λ body. body_sequences body ≡ Some (sequence.0 ∷ [])) }
        ensures memory { IfErr result (λ e. e ≡ Memory) }
    {
        let mut batch = Batch::new(Vec::new(alloc));
        batch.push(sequence)?;
        Ok(Body::Sequence(batch))
    }
}

impl Body<Value> {
    /// Returns the body that is this section of data. The only error is `Memory`.
    pub fn from_data(data: Data, alloc: Global) -> Result<Body<Value>, Error>
        ensures data { IfOk result (λ body. body_data body ≡ Some («data».0 ∷ [])) }
        ensures memory { IfErr result (λ e. e ≡ Memory) }
    {
        let mut batch = Batch::new(Vec::new(alloc));
        batch.push(data)?;
        Ok(Body::Data(batch))
    }
}
