//! Universally unique identifiers (Part 1, section 1.6.18).
ghost use Rattle.std.specs.Prelude.{◌≡◌, refl};
ghost use Rattle.std.proofs.lemmas.Slice.Eq.{bytes_eq-Decides};
ghost use Rattle.amqp_codec.specs.Agreement.{one_term, agreement, writing_of};
ghost use Rattle.amqp_codec.specs.laws.Key.{key_of};
ghost use Rattle.amqp_primitives.specs.Types.{uuid_type};

use amqp_codec::{
    ByteSource, Decoder, DeserializeTerm, Encoder, Error, MapKey, Pass, Serialize, SerializeTerm,
};
use std::alloc::Global;

/// A universally unique identifier (Part 1, section 1.6.18; RFC 4122): its 16 bytes. Which of its forms they have isn't checked.
#[derive(Clone, Debug, PartialEq, Eq, PartialOrd, Ord, Hash, Drop)]
pub struct Uuid(pub [u8; 16]);

impl Uuid {
    /// Returns the 16 bytes, the most significant first.
    pub fn as_slice(&self) -> &[u8]
        ensures { result.now ≡ self.now.0 }
    {
        &self.0
    }

    /// Moves the 16 bytes out of the identifier, and returns them.
    pub fn into_inner(self) -> [u8; 16]
        ensures { result ≡ self.0 }
    {
        let Uuid(bytes) = self;
        bytes
    }
}

impl From<[u8; 16]> for Uuid {
    ghost from_gives = { λ bytes identifier. identifier.0 ≡ bytes };

    fn from(bytes: [u8; 16]) -> Uuid {
        Uuid(bytes)
    }
}

impl Serialize for Uuid {
    ghost writing = { writing_of uuid_type refl };

    fn serialize<P: Pass>(&self, encoder: &mut Encoder<P>) -> Result<(), Error> {
        encoder.write_uuid(self.0)
    }

    fn in_type(&self) {
        let _bytes = self.0;
    }
}

impl SerializeTerm for Uuid {
    fn is_null(&self) -> bool {
        false
    }

    ghost is_term = { one_term uuid_type refl };
}

impl DeserializeTerm for Uuid {
    ghost term = { uuid_type };

    fn read_value<R: ByteSource>(decoder: &mut Decoder<R>, _alloc: Global) -> Result<Uuid, Error> {
        Ok(Uuid(decoder.read_uuid()?))
    }

    ghost agreement = { agreement uuid_type refl };
}

impl MapKey for Uuid {
    ghost is_key = { key_of refl (λ v w. bytes_eq-Decides v.0 w.0) };
}
