//! The mechanisms that a server offers (Part 5, section 5.3.3.1).
ghost use Rattle.std.specs.Prelude.{◌≡◌, ◌∷◌, [], IfErr, IfOk, codes, map, string_bytes};
ghost use Rattle.std.specs.List.{AllZip};
ghost use Rattle.amqp_wire.specs.declared.error.Error.TheVariants.{Memory};
ghost use Rattle.amqp_sums.specs.Types.{composite, fields_of, names_of, one_term, refl, agreement, writing_of};
ghost use Rattle.amqp_sasl.specs.Tables.{sasl_mechanisms};

use crate::constants::ANONYMOUS;
use amqp_codec::kernel::{Composite, FieldList, FieldRule, write_composite};
use amqp_codec::{
    ByteSource, Decoder, Encoder, Error, Pass, Serialize, SerializeTerm, Symbol, fields,
};
use amqp_containers::Array;
use amqp_containers::multiple::{
    is_null_mandatory_multiple, read_mandatory_multiple, write_mandatory_multiple,
};
use std::alloc::{AllocError, Global};

/// The SASL mechanisms that a server offers: the body of a frame. There is at least one. A body without mechanisms is refused with
/// `EmptyMultiple`, in reading and in writing.
#[derive(Debug, PartialEq, Eq, Drop)]
pub struct SaslMechanisms {
    /// The mechanisms, in the order of the server's preference.
    pub sasl_server_mechanisms: Array<Symbol>,
}

// The fields, in order.
macro_rules! sasl_mechanisms_fields {
    ($($part:tt)*) => {
        fields! { [$($part)*]
            0 sasl_server_mechanisms "sasl-server-mechanisms" mandatory_multiple,
        }
    };
}

impl SaslMechanisms {
    /// The code and the name of its descriptor.
    pub const DESCRIPTOR: (u64, &'static str) = (0x40, "amqp:sasl-mechanisms:list");

    /// The standard's names of the fields, in order.
    pub const FIELD_NAMES: &'static [&'static str] = sasl_mechanisms_fields!(names);

    /// Returns the body that offers `ANONYMOUS` alone, in place of a default. The only error is `Memory`.
    pub fn default_in(alloc: Global) -> Result<SaslMechanisms, Error>
        ensures anonymous { IfOk result (λ mechanisms. map (λ symbol. string_bytes symbol.0) mechanisms.sasl_server_mechanisms.0.items
            ≡ codes "ANONYMOUS" ∷ []) }
        ensures refused { IfErr result (λ e. e ≡ Memory) }
    {
        let anonymous = Symbol::from_str_in(ANONYMOUS, alloc)?;
        let mut mechanisms = Array::from(Vec::new(alloc));
        mechanisms.push(anonymous)?;
        Ok(SaslMechanisms {
            sasl_server_mechanisms: mechanisms,
        })
    }
}

impl Clone for SaslMechanisms {
    ghost is_clone = { λ v w. AllZip ⟦<Symbol as Clone>⟧.is_clone v.sasl_server_mechanisms.0.items w.sasl_server_mechanisms.0.items };

    fn clone(&self) -> Result<SaslMechanisms, AllocError> {
        Ok(SaslMechanisms {
            sasl_server_mechanisms: Array(self.sasl_server_mechanisms.0.clone()?),
        })
    }
}

impl FieldList for SaslMechanisms {
    ghost list = { fields_of sasl_mechanisms };

    fn field_rules() -> &'static [FieldRule] {
        sasl_mechanisms_fields!(rules)
    }

    fn blank(alloc: Global) -> SaslMechanisms {
        SaslMechanisms {
            sasl_server_mechanisms: Array::from(Vec::new(alloc)),
        }
    }

    #[inline(always)]
    fn fill_field<R: ByteSource>(
        &mut self,
        index: usize,
        decoder: &mut Decoder<R>,
        alloc: Global,
    ) -> Result<(), Error> {
        sasl_mechanisms_fields!(fill(self, index, decoder, alloc))
    }

    #[inline(always)]
    fn is_null_field(&self, index: usize) -> bool {
        sasl_mechanisms_fields!(is_null(self, index))
    }

    #[inline(always)]
    fn write_field<P: Pass>(&self, index: usize, encoder: &mut Encoder<P>) -> Result<(), Error> {
        sasl_mechanisms_fields!(write(self, index, encoder))
    }
}

impl Serialize for SaslMechanisms {
    ghost writing = { writing_of (composite sasl_mechanisms) refl };

    fn serialize<P: Pass>(&self, encoder: &mut Encoder<P>) -> Result<(), Error> {
        write_composite(self, SaslMechanisms::DESCRIPTOR.0, encoder)
    }

    fn in_type(&self) {
        sasl_mechanisms_fields!(in_type(self));
    }
}

impl SerializeTerm for SaslMechanisms {
    fn is_null(&self) -> bool {
        false
    }

    ghost is_term = { one_term (composite sasl_mechanisms) refl };
}

impl Composite for SaslMechanisms {
    ghost names = { names_of sasl_mechanisms };

    fn descriptor() -> (u64, &'static str) {
        SaslMechanisms::DESCRIPTOR
    }

    ghost agrees = { agreement (composite sasl_mechanisms) refl };
}
