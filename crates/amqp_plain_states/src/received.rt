//! The received state (Part 3, section 3.4.1).
ghost use Rattle.amqp_sums.specs.Types.{composite, fields_of, names_of, one_term, refl, agreement, writing_of};
ghost use Rattle.amqp_plain_states.specs.Tables.{received};

use amqp_codec::kernel::{Composite, FieldList, FieldRule, write_composite};
use amqp_codec::{ByteSource, Decoder, Encoder, Error, Pass, Serialize, SerializeTerm, fields};
use std::alloc::Global;

/// How far a message was received: the section, and the byte in it, from which the sender may continue.
#[derive(Clone, Debug, PartialEq, Eq, PartialOrd, Ord, Drop)]
pub struct Received {
    /// The number of the section, from 0 on.
    pub section_number: u32,
    /// The first byte of the section's payload that was not received.
    pub section_offset: u64,
}

// The fields, in order.
macro_rules! received_fields {
    ($($part:tt)*) => {
        fields! { [$($part)*]
            0 section_number "section-number" mandatory,
            1 section_offset "section-offset" mandatory,
        }
    };
}

impl Received {
    /// The code and the name of its descriptor.
    pub const DESCRIPTOR: (u64, &'static str) = (0x23, "amqp:received:list");

    /// The standard's names of the fields, in order.
    pub const FIELD_NAMES: &'static [&'static str] = received_fields!(names);
}

impl FieldList for Received {
    ghost list = { fields_of received };

    fn field_rules() -> &'static [FieldRule] {
        received_fields!(rules)
    }

    fn blank(_alloc: Global) -> Received {
        Received {
            section_number: 0,
            section_offset: 0,
        }
    }

    #[inline(always)]
    fn fill_field<R: ByteSource>(
        &mut self,
        index: usize,
        decoder: &mut Decoder<R>,
        alloc: Global,
    ) -> Result<(), Error> {
        received_fields!(fill(self, index, decoder, alloc))
    }

    #[inline(always)]
    fn is_null_field(&self, index: usize) -> bool {
        received_fields!(is_null(self, index))
    }

    #[inline(always)]
    fn write_field<P: Pass>(&self, index: usize, encoder: &mut Encoder<P>) -> Result<(), Error> {
        received_fields!(write(self, index, encoder))
    }
}

impl Serialize for Received {
    ghost writing = { writing_of (composite received) refl };

    fn serialize<P: Pass>(&self, encoder: &mut Encoder<P>) -> Result<(), Error> {
        write_composite(self, Received::DESCRIPTOR.0, encoder)
    }

    fn in_type(&self) {
        received_fields!(in_type(self));
    }
}

impl SerializeTerm for Received {
    fn is_null(&self) -> bool {
        false
    }

    ghost is_term = { one_term (composite received) refl };
}

impl Composite for Received {
    ghost names = { names_of received };

    fn descriptor() -> (u64, &'static str) {
        Received::DESCRIPTOR
    }

    ghost agrees = { agreement (composite received) refl };
}
