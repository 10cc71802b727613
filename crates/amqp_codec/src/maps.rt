//! What all maps use in writing (Part 1, section 1.6.23): a key and its value.
ghost use Rattle.std.specs.Prelude.{[], ◌∷◌};
ghost use Rattle.amqp_codec.specs.Written.{WritesTerms, canon_of};

use crate::SerializeTerm;
use amqp_encoder::{Encoder, Pass};
use amqp_wire::Error;

/// Writes a key and then its value, into a map that is open. It returns the errors of the key and of the value.
pub fn write_pair<K: SerializeTerm, V: SerializeTerm, P: Pass>(
    key: &K,
    value: &V,
    encoder: &mut Encoder<P>,
) -> Result<(), Error>
    ensures { WritesTerms (canon_of K.writing key.now ∷ canon_of V.writing value.now ∷ []) encoder.old result encoder.new }
{
    key.serialize(encoder)?;
    value.serialize(encoder)
}

/// Promises that a key and its value are of their types. It doesn't allocate.
pub fn pair_in_type<K: SerializeTerm, V: SerializeTerm>(key: &K, value: &V)
    ensures key { K.writing.is_value key.now }
    ensures value { V.writing.is_value value.now }
{
    key.in_type();
    value.in_type();
}
