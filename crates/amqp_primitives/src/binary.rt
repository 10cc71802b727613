//! Bytes (Part 1, section 1.6.19).
ghost use Rattle.std.specs.Prelude.{◌≡◌, refl};
ghost use Rattle.std.proofs.lemmas.Slice.Eq.{bytes_eq-Decides};
ghost use Rattle.amqp_codec.specs.Agreement.{one_term, agreement, writing_of};
ghost use Rattle.amqp_codec.specs.laws.Key.{key_of};
ghost use Rattle.amqp_primitives.specs.Types.{binary_type};

use amqp_codec::{
    ByteSource, Decoder, DeserializeTerm, Encoder, Error, MapKey, Pass, Serialize, SerializeTerm,
};
use std::alloc::Global;

/// Bytes without a meaning of their own (Part 1, section 1.6.19). More than 4,294,967,295 can't be written, and are refused with
/// `Error::TooLarge`.
#[derive(Clone, Debug, PartialEq, Eq, PartialOrd, Ord, Hash, Drop)]
pub struct Binary(pub Vec<u8>);

/// Another name of `Binary`.
pub type ByteBuf = Binary;

impl Binary {
    /// Returns the bytes, borrowed.
    pub fn as_slice(&self) -> &[u8]
        ensures { result.now ≡ self.now.0.items }
    {
        self.0.as_slice()
    }

    /// Moves the bytes out of the value, and returns them.
    pub fn into_inner(self) -> Vec<u8>
        ensures { result ≡ self.0 }
    {
        let Binary(bytes) = self;
        bytes
    }
}

impl From<Vec<u8>> for Binary {
    ghost from_gives = { λ bytes binary. binary.0 ≡ bytes };

    fn from(bytes: Vec<u8>) -> Binary {
        Binary(bytes)
    }
}

impl Serialize for Binary {
    ghost writing = { writing_of binary_type refl };

    fn serialize<P: Pass>(&self, encoder: &mut Encoder<P>) -> Result<(), Error> {
        encoder.write_binary(self.as_slice())
    }

    fn in_type(&self) {}
}

impl SerializeTerm for Binary {
    fn is_null(&self) -> bool {
        false
    }

    ghost is_term = { one_term binary_type refl };
}

impl DeserializeTerm for Binary {
    ghost term = { binary_type };

    fn read_value<R: ByteSource>(decoder: &mut Decoder<R>, alloc: Global) -> Result<Binary, Error> {
        Ok(Binary(decoder.read_binary(alloc)?))
    }

    ghost agreement = { agreement binary_type refl };
}

impl MapKey for Binary {
    ghost is_key = { key_of refl (λ v w. bytes_eq-Decides v.0.items w.0.items) };
}
