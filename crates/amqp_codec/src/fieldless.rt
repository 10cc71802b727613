//! Composites without fields (Part 1, section 1.4).
use crate::fields::{FieldList, FieldRule};
use amqp_decoder::Decoder;
use amqp_encoder::{Encoder, Pass};
use amqp_wire::{ByteSource, Error};
use std::alloc::Global;

/// A composite type that has no fields: its value.
pub trait Fieldless: Sized + Drop {
    ghost use Rattle.amqp_codec.specs.Composite.{Table};
    ghost use Rattle.amqp_codec.specs.Fieldless.{HasNoFields};

    ghost table: { Table Self };

    ghost no_fields: { HasNoFields table.fields };

    /// Returns the value.
    fn value() -> Self;
}

// No field is read or written.
impl<F: Fieldless> FieldList for F {
    ghost use Rattle.amqp_codec.specs.Composite.{fields_of};

    ghost list = { fields_of F.table };

    #[tactic(auto, using(crate::proofs::NoFields::no_rules))]
    fn field_rules() -> &'static [FieldRule] {
        &[]
    }

    #[tactic(auto, using(crate::proofs::NoFields::blank))]
    fn blank(_alloc: Global) -> F {
        F::value()
    }

    #[inline(always)]
    fn fill_field<R: ByteSource>(
        &mut self,
        _index: usize,
        _decoder: &mut Decoder<R>,
        _alloc: Global,
    ) -> Result<(), Error> {
        unreachable!()
    }

    fn is_null_field(&self, _index: usize) -> bool {
        unreachable!()
    }

    fn write_field<P: Pass>(&self, _index: usize, _encoder: &mut Encoder<P>) -> Result<(), Error> {
        unreachable!()
    }
}
