//! A type of a user's own: a duration, which is written as a list of one uint.
ghost use Rattle.amqp_sums.specs.Types.{field, list_of, mandatory, none, one_term, unchanged, refl, agreement, uint_type, writing_of};

use fe2o3_amqp_types::codec::kernel::{FieldList, FieldRule, read_into, read_list, write_list};
use fe2o3_amqp_types::codec::{
    ByteSource, Decoder, DeserializeTerm, Encoder, Error, Pass, Serialize, SerializeTerm,
};
use std::alloc::Global;

/// A duration in seconds.
#[derive(Clone, Copy, Debug, PartialEq, Eq, Drop)]
pub struct Seconds {
    pub count: u32,
}

impl FieldList for Seconds {
    ghost list = { record {
      fields = field (λ v. v.count) (mandatory uint_type refl refl) none;
      norm = unchanged;
      norm_is = λ v. (refl, tt);
    } };

    fn field_rules() -> &'static [FieldRule] {
        &[FieldRule::Mandatory]
    }

    fn blank(_alloc: Global) -> Seconds {
        Seconds { count: 0 }
    }

    #[inline(always)]
    fn fill_field<R: ByteSource>(
        &mut self,
        _index: usize,
        decoder: &mut Decoder<R>,
        alloc: Global,
    ) -> Result<(), Error> {
        read_into(&mut self.count, decoder, alloc)
    }

    #[inline(always)]
    fn is_null_field(&self, _index: usize) -> bool {
        false
    }

    #[inline(always)]
    fn write_field<P: Pass>(&self, _index: usize, encoder: &mut Encoder<P>) -> Result<(), Error> {
        self.count.serialize(encoder)
    }
}

impl Serialize for Seconds {
    ghost writing = { writing_of (list_of ⟦<Seconds as FieldList>⟧.list) refl };

    fn serialize<P: Pass>(&self, encoder: &mut Encoder<P>) -> Result<(), Error> {
        write_list(self, encoder)
    }

    fn in_type(&self) {
        self.count.in_type();
    }
}

impl SerializeTerm for Seconds {
    fn is_null(&self) -> bool {
        false
    }

    ghost is_term = { one_term (list_of ⟦<Seconds as FieldList>⟧.list) refl };
}

impl DeserializeTerm for Seconds {
    ghost term = { list_of ⟦<Seconds as FieldList>⟧.list };

    fn read_value<R: ByteSource>(decoder: &mut Decoder<R>, alloc: Global) -> Result<Self, Error> {
        read_list(decoder, alloc)
    }

    ghost agreement = { agreement (list_of ⟦<Seconds as FieldList>⟧.list) refl };
}
