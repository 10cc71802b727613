//! `LazyValue`, the bytes of one term.
ghost use Rattle.std.specs.Prelude.{◌≡◌, ◌≤◌, ◌∷◌, [], IfOk, IfErr, refl};
ghost use Rattle.amqp_model.specs.Term.{Term, null, leaf};
ghost use Rattle.amqp_model.specs.Spelling.{IsSpelling};
ghost use Rattle.amqp_model.specs.Measures.{nest, nodes};
ghost use Rattle.amqp_model.specs.Standing.{whole};
ghost use Rattle.amqp_wire.specs.declared.error.Error.TheVariants.{Memory};
ghost use Rattle.amqp_lazy.specs.LazyType.{lazy_type, lazy_writing, lazy_agreement, SpellsTerm};

use amqp_codec::{DeserializeTerm, Serialize, SerializeTerm};
use amqp_decoder::Decoder;
use amqp_encoder::{Encoder, Pass};
use amqp_lengths::measures_of;
use amqp_wire::{ByteSource, Error, format_code};
use std::alloc::{AllocError, Global};
use std::marker::Model;

/// The bytes of one term of any kind, its constructor included, as they were read (Part 1, section 1.2). It is written as these bytes, so
/// that a value can be passed on without being understood.
///
/// What is read is checked to encode a term that nests at most 128 deep. If it doesn't, the error is one of `codec::term_len` of
/// `fe2o3_amqp_types`. Whether two keys of a map in it are equal isn't checked. The values in it count in how deep values nest, in reading
/// and in writing, and in how many values there are.
///
/// As an item of an array, whose constructor is shared, it is refused with `LazyInArray`, in reading and in writing.
#[derive(Debug, Drop)]
pub struct LazyValue {
    bytes: Vec<u8>,
    // how deep the term nests
    nesting: usize,
    // how many values are in it
    nodes: usize,
}

impl Model for LazyValue {
    ghost use Rattle.amqp_lengths.specs.Measured.{IsMeasured};
    ghost use Rattle.amqp_lazy.specs.LazyType.{Lazy};

    ghost Value = { Lazy };

    ghost view = { λ v. record { bytes = v.bytes; nodes = v.nodes } };

    ghost invariant = { λ v. IsMeasured v.nodes v.nesting v.bytes.items };
}

impl LazyValue {
    /// Returns the bytes of a null. The only error is `Memory`.
    pub fn null(alloc: Global) -> Result<LazyValue, Error>
        ensures null { IfOk result (lazy_type.means (whole (0x40 ∷ [])) (leaf null)) }
        ensures memory { IfErr result (λ e. e ≡ Memory) }
    {
        Ok(LazyValue {
            bytes: Vec::from_slice(alloc, &[format_code::NULL])?,
            nesting: 0,
            nodes: 1,
        })
    }

    /// Returns the bytes, which encode one term. It nests at most 128 deep.
    pub fn as_slice(&self) -> &[u8]
        ensures bytes { result.now ≡ self.now.bytes.items }
        ensures term { SpellsTerm self.now.bytes.items }
        ensures nodes { (t : Term) → IsSpelling self.now.bytes.items t → nodes t ≡ lazy_type.count self.now }
        ensures nested { (t : Term) → IsSpelling self.now.bytes.items t → nest t ≤ 128 }
    {
        self.bytes.as_slice()
    }
}

impl Clone for LazyValue {
    ghost is_clone = { λ v w. (w.bytes.items ≡ v.bytes.items) × (w.nodes ≡ v.nodes) };

    // It allocates for the bytes.
    fn clone(&self) -> Result<LazyValue, AllocError> {
        Ok(LazyValue {
            bytes: self.bytes.clone()?,
            nesting: self.nesting,
            nodes: self.nodes,
        })
    }
}

impl Serialize for LazyValue {
    ghost writing = { lazy_writing };

    fn serialize<P: Pass>(&self, encoder: &mut Encoder<P>) -> Result<(), Error> {
        encoder.write_term(self.bytes.as_slice(), self.nesting)
    }

    fn in_type(&self) {
        let _bytes = self.as_slice();
    }
}

impl SerializeTerm for LazyValue {
    fn is_null(&self) -> bool {
        match self.as_slice() {
            [code] => *code == format_code::NULL,
            _ => false,
        }
    }

    ghost is_term = { λ v. refl };
}

impl DeserializeTerm for LazyValue {
    ghost term = { lazy_type };

    // What is read is a term. If a source doesn't give the bytes that its contract states, what isn't a term is `InvalidValue`.
    fn read_value<R: ByteSource>(
        decoder: &mut Decoder<R>,
        alloc: Global,
    ) -> Result<LazyValue, Error> {
        decoder.room();
        let place = decoder.place();
        let bytes = decoder.read_term(alloc)?;
        match measures_of(bytes.as_slice()) {
            Some(term) => Ok(LazyValue {
                bytes,
                nesting: term.nesting,
                nodes: term.nodes,
            }),
            None => Err(decoder.refuse_at(place, Error::InvalidValue)),
        }
    }

    ghost agreement = { lazy_agreement };
}
