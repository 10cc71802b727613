//! Decimal numbers of 128 bits (Part 1, section 1.6.15), as their bytes.
ghost use Rattle.std.specs.Prelude.{◌≡◌, refl};
ghost use Rattle.std.proofs.lemmas.Slice.Eq.{bytes_eq-Decides};
ghost use Rattle.amqp_codec.specs.Agreement.{one_term, agreement, writing_of};
ghost use Rattle.amqp_codec.specs.laws.Key.{key_of};
ghost use Rattle.amqp_primitives.specs.Types.{decimal128_type};

use amqp_codec::{
    ByteSource, Decoder, DeserializeTerm, Encoder, Error, MapKey, Pass, Serialize, SerializeTerm,
};
use std::alloc::Global;

/// A decimal number of 128 bits (Part 1, section 1.6.15): the bytes of IEEE 754's decimal128, which aren't changed. Two are equal if their
/// bytes are, and are ordered by them.
#[derive(Clone, Debug, PartialEq, Eq, PartialOrd, Ord, Hash, Drop)]
pub struct Dec128(pub [u8; 16]);

impl Dec128 {
    /// Returns the 16 bytes, the most significant first.
    pub fn as_slice(&self) -> &[u8]
        ensures { result.now ≡ self.now.0 }
    {
        &self.0
    }

    /// Moves the 16 bytes out of the number, and returns them.
    pub fn into_inner(self) -> [u8; 16]
        ensures { result ≡ self.0 }
    {
        let Dec128(bytes) = self;
        bytes
    }
}

impl From<[u8; 16]> for Dec128 {
    ghost from_gives = { λ bytes number. number.0 ≡ bytes };

    fn from(bytes: [u8; 16]) -> Dec128 {
        Dec128(bytes)
    }
}

impl Serialize for Dec128 {
    ghost writing = { writing_of decimal128_type refl };

    fn serialize<P: Pass>(&self, encoder: &mut Encoder<P>) -> Result<(), Error> {
        encoder.write_dec128(self.0)
    }

    fn in_type(&self) {
        let _bytes = self.0;
    }
}

impl SerializeTerm for Dec128 {
    fn is_null(&self) -> bool {
        false
    }

    ghost is_term = { one_term decimal128_type refl };
}

impl DeserializeTerm for Dec128 {
    ghost term = { decimal128_type };

    fn read_value<R: ByteSource>(
        decoder: &mut Decoder<R>,
        _alloc: Global,
    ) -> Result<Dec128, Error> {
        Ok(Dec128(decoder.read_dec128()?))
    }

    ghost agreement = { agreement decimal128_type refl };
}

impl MapKey for Dec128 {
    ghost is_key = { key_of refl (λ v w. bytes_eq-Decides v.0 w.0) };
}
