//! The sections that may come several times in a message (Part 3, sections 3.2.6 and 3.2.7).
ghost use Rattle.std.proofs.Common.{inl, inr};
ghost use Rattle.std.specs.Prelude.{refl};
ghost use Rattle.amqp_codec.specs.Agreement.{writing_of};
ghost use Rattle.amqp_primitives.specs.Types.{binary_type};
ghost use Rattle.amqp_sections.specs.Sections.{in_data, in_sequence};
ghost use Rattle.amqp_batches.specs.RepeatedSections.{data_section, sequence_section};

use crate::run::BatchItem;
use amqp_codec::{Serialize, SerializeTerm};
use amqp_sections::{AmqpSequence, Data};
use amqp_wire::section_code;

impl BatchItem for Data {
    ghost code = { 0x75 };

    fn code() -> u8 {
        section_code::DATA
    }

    ghost is_section = { data_section in_data (writing_of binary_type refl) };

    ghost is_repeated = { inl refl };
}

impl<T: SerializeTerm> BatchItem for AmqpSequence<T> {
    ghost code = { 0x76 };

    fn code() -> u8 {
        section_code::AMQP_SEQUENCE
    }

    ghost is_section = { sequence_section in_sequence ⟦<Vec<T> as Serialize>⟧.writing };

    ghost is_repeated = { inr refl };
}
