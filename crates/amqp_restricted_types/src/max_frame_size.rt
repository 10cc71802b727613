//! The greatest size of a frame (Part 2, section 2.7.1).
ghost use Rattle.std.specs.Prelude.{◌≡◌, refl};
ghost use Rattle.amqp_codec.specs.Agreement.{one_term, agreement, writing_of};
ghost use Rattle.amqp_restricted_types.specs.Transport.{max_frame_size_type};

use amqp_codec::{
    ByteSource, Decoder, DeserializeTerm, Encoder, Error, Pass, Serialize, SerializeTerm,
};
use std::alloc::Global;

/// The greatest size, in bytes, of a frame that is sent to a peer. The default, 4,294,967,295, is the greatest possible.
#[derive(Clone, Debug, PartialEq, Eq, Drop)]
pub struct MaxFrameSize(pub u32);

impl Default for MaxFrameSize {
    ghost is_default = { λ size. size.0 ≡ 4294967295 };

    fn default() -> MaxFrameSize {
        MaxFrameSize(u32::MAX)
    }
}

impl From<u32> for MaxFrameSize {
    ghost from_gives = { λ number size. size.0 ≡ number };

    fn from(number: u32) -> MaxFrameSize {
        MaxFrameSize(number)
    }
}

impl From<MaxFrameSize> for u32 {
    ghost from_gives = { λ size number. number ≡ size.0 };

    fn from(size: MaxFrameSize) -> u32 {
        size.0
    }
}

impl From<MaxFrameSize> for usize {
    ghost from_gives = { λ size number. number ≡ size.0 };

    fn from(size: MaxFrameSize) -> usize {
        size.0 as usize
    }
}

impl Serialize for MaxFrameSize {
    ghost writing = { writing_of max_frame_size_type refl };

    fn serialize<P: Pass>(&self, encoder: &mut Encoder<P>) -> Result<(), Error> {
        encoder.write_uint(self.0)
    }

    fn in_type(&self) {
        let _number = self.0;
    }
}

impl SerializeTerm for MaxFrameSize {
    fn is_null(&self) -> bool {
        false
    }

    ghost is_term = { one_term max_frame_size_type refl };
}

impl DeserializeTerm for MaxFrameSize {
    ghost term = { max_frame_size_type };

    fn read_value<R: ByteSource>(
        decoder: &mut Decoder<R>,
        _alloc: Global,
    ) -> Result<MaxFrameSize, Error> {
        Ok(MaxFrameSize(decoder.read_uint()?))
    }

    ghost agreement = { agreement max_frame_size_type refl };
}
