//! How urgent a message is (Part 3, section 3.2.1).
ghost use Rattle.std.specs.Prelude.{◌≡◌, refl};
ghost use Rattle.amqp_codec.specs.Agreement.{one_term, agreement, writing_of};
ghost use Rattle.amqp_message_headers.specs.Priorities.{priority_type};

use amqp_codec::{
    ByteSource, Decoder, DeserializeTerm, Encoder, Error, Pass, Serialize, SerializeTerm,
};
use std::alloc::Global;

/// How urgent a message is, compared with others: a greater number is more urgent. The default is 4 (Part 3, section 3.2.1).
#[derive(Clone, Copy, Debug, PartialEq, Eq, PartialOrd, Ord, Hash)]
pub struct Priority(pub u8);

impl Default for Priority {
    ghost is_default = { λ priority. priority.0 ≡ 4 };

    fn default() -> Priority {
        Priority(4)
    }
}

impl From<u8> for Priority {
    ghost from_gives = { λ number priority. priority.0 ≡ number };

    fn from(number: u8) -> Priority {
        Priority(number)
    }
}

impl From<Priority> for u8 {
    ghost from_gives = { λ priority number. number ≡ priority.0 };

    fn from(priority: Priority) -> u8 {
        priority.0
    }
}

impl Serialize for Priority {
    ghost writing = { writing_of priority_type refl };

    fn serialize<P: Pass>(&self, encoder: &mut Encoder<P>) -> Result<(), Error> {
        encoder.write_ubyte(self.0)
    }

    fn in_type(&self) {
        let _number = self.0;
    }
}

impl SerializeTerm for Priority {
    fn is_null(&self) -> bool {
        false
    }

    ghost is_term = { one_term priority_type refl };
}

impl DeserializeTerm for Priority {
    ghost term = { priority_type };

    fn read_value<R: ByteSource>(
        decoder: &mut Decoder<R>,
        _alloc: Global,
    ) -> Result<Priority, Error> {
        Ok(Priority(decoder.read_ubyte()?))
    }

    ghost agreement = { agreement priority_type refl };
}
