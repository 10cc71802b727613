//! Points in time (Part 1, section 1.6.17).
ghost use Rattle.std.specs.Prelude.{◌≡◌, refl};
ghost use Rattle.std.specs.Cmp.{signed_Decides};
ghost use Rattle.amqp_codec.specs.Agreement.{one_term, agreement, writing_of};
ghost use Rattle.amqp_codec.specs.laws.Key.{key_of};
ghost use Rattle.amqp_primitives.specs.Types.{timestamp_type};

use amqp_codec::{
    ByteSource, Decoder, DeserializeTerm, Encoder, Error, MapKey, Pass, Serialize, SerializeTerm,
};
use std::alloc::Global;

/// A point in time (Part 1, section 1.6.17): milliseconds since the start of 1970 in UTC, negative before it.
#[derive(Clone, Debug, PartialEq, Eq, PartialOrd, Ord, Hash, Drop)]
pub struct Timestamp(pub i64);

impl Timestamp {
    /// Returns the milliseconds since the start of 1970.
    pub fn into_inner(self) -> i64
        ensures { result ≡ self.0 }
    {
        self.0
    }
}

impl From<i64> for Timestamp {
    ghost from_gives = { λ milliseconds timestamp. timestamp.0 ≡ milliseconds };

    fn from(milliseconds: i64) -> Timestamp {
        Timestamp(milliseconds)
    }
}

impl Serialize for Timestamp {
    ghost writing = { writing_of timestamp_type refl };

    fn serialize<P: Pass>(&self, encoder: &mut Encoder<P>) -> Result<(), Error> {
        encoder.write_timestamp(self.0)
    }

    fn in_type(&self) {
        let _milliseconds = self.0;
    }
}

impl SerializeTerm for Timestamp {
    fn is_null(&self) -> bool {
        false
    }

    ghost is_term = { one_term timestamp_type refl };
}

impl DeserializeTerm for Timestamp {
    ghost term = { timestamp_type };

    fn read_value<R: ByteSource>(
        decoder: &mut Decoder<R>,
        _alloc: Global,
    ) -> Result<Timestamp, Error> {
        Ok(Timestamp(decoder.read_timestamp()?))
    }

    ghost agreement = { agreement timestamp_type refl };
}

impl MapKey for Timestamp {
    ghost is_key = { key_of refl (λ v w. signed_Decides v.0 w.0) };
}
