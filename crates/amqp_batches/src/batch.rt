//! Batches: sections of one kind as one value (Part 3, sections 3.2.6 and 3.2.7).
ghost use Rattle.std.specs.Prelude.{false};
ghost use Rattle.amqp_lookahead.specs.Sections.{IsSectionAhead};
ghost use Rattle.amqp_codec.specs.TermReading.{reading_of};
ghost use Rattle.amqp_batches.specs.Batches.{batch_writing, batch_reading, batch_again, batch_rewrites};

use crate::run::{BatchItem, read_run};
use crate::transparent_vec::TransparentVec;
use amqp_codec::kernel::{each_in_type, write_each};
use amqp_codec::{Canonical, Deserialize, DeserializeTerm, Serialize};
use amqp_decoder::Decoder;
use amqp_encoder::{Encoder, Pass};
use amqp_wire::{ByteSource, Error};
use std::alloc::Global;

/// Sections of one kind, one after another.
pub type Batch<T> = TransparentVec<T>;

impl<T: BatchItem> Serialize for TransparentVec<T> {
    ghost writing = { batch_writing T.writing };

    fn serialize<P: Pass>(&self, encoder: &mut Encoder<P>) -> Result<(), Error> {
        write_each(self.as_slice(), encoder)
    }

    fn in_type(&self) {
        each_in_type(self.as_slice())
    }
}

impl<T: BatchItem + DeserializeTerm> Deserialize for TransparentVec<T> {
    ghost reading = { batch_reading T.code (reading_of T.term) };

    fn is_one_term() -> bool {
        false
    }

    fn deserialize<R: ByteSource>(
        decoder: &mut Decoder<R>,
        alloc: Global,
    ) -> Result<TransparentVec<T>, Error> {
        if decoder.peek_section()? == Some(T::code()) {
            Ok(TransparentVec::new(read_run(decoder, alloc)?))
        } else {
            Ok(TransparentVec::new(Vec::new(alloc)))
        }
    }
}

impl<T: BatchItem + DeserializeTerm> Canonical for TransparentVec<T> {
    ghost follows = { λ more. IsSectionAhead more T.code → ⊥ };

    ghost again = { batch_again T.term };

    ghost is_least = { false };

    ghost rewrites = { batch_rewrites T.code T.is_section T.agreement };
}
