//! Handles of links (Part 2, section 2.8.4).
ghost use Rattle.std.specs.Prelude.{◌≡◌, refl};
ghost use Rattle.amqp_codec.specs.Agreement.{one_term, agreement, writing_of};
ghost use Rattle.amqp_restricted_types.specs.Transport.{handle_type};

use amqp_codec::{
    ByteSource, Decoder, DeserializeTerm, Encoder, Error, Pass, Serialize, SerializeTerm,
};
use std::alloc::Global;

/// The number of a link in a session; in `handle-max`, the greatest number that may be used. The default is that of `handle-max`,
/// 4,294,967,295 (Part 2, section 2.7.2).
#[derive(Clone, Debug, PartialEq, Eq, PartialOrd, Ord, Drop)]
pub struct Handle(pub u32);

impl Default for Handle {
    ghost is_default = { λ handle. handle.0 ≡ 4294967295 };

    fn default() -> Handle {
        Handle(u32::MAX)
    }
}

impl From<u32> for Handle {
    ghost from_gives = { λ number handle. handle.0 ≡ number };

    fn from(number: u32) -> Handle {
        Handle(number)
    }
}

impl From<Handle> for u32 {
    ghost from_gives = { λ handle number. number ≡ handle.0 };

    fn from(handle: Handle) -> u32 {
        handle.0
    }
}

impl Serialize for Handle {
    ghost writing = { writing_of handle_type refl };

    #[inline(always)]
    fn serialize<P: Pass>(&self, encoder: &mut Encoder<P>) -> Result<(), Error> {
        encoder.write_uint(self.0)
    }

    fn in_type(&self) {
        let _number = self.0;
    }
}

impl SerializeTerm for Handle {
    fn is_null(&self) -> bool {
        false
    }

    ghost is_term = { one_term handle_type refl };
}

impl DeserializeTerm for Handle {
    ghost term = { handle_type };

    fn read_value<R: ByteSource>(
        decoder: &mut Decoder<R>,
        _alloc: Global,
    ) -> Result<Handle, Error> {
        Ok(Handle(decoder.read_uint()?))
    }

    ghost agreement = { agreement handle_type refl };
}
