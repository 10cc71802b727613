//! Values under a descriptor of their own (Part 1, section 1.2).
ghost use Rattle.std.specs.Prelude.{◌≡◌, IfOk, IfErr, refl};
ghost use Rattle.amqp_model.specs.Spelling.{descriptor_value};
ghost use Rattle.amqp_model.specs.Ranges.{IsInRange};
ghost use Rattle.amqp_wire.specs.declared.error.Error.TheVariants.{Memory};
ghost use Rattle.amqp_lookahead.specs.Members.{descriptor_of};
ghost use Rattle.amqp_codec.specs.Agreement.{via_writing};
ghost use Rattle.amqp_codec.specs.DescribedPairMeaning.{any_descriptor};
ghost use Rattle.amqp_codec.specs.DescribedPairWriting.{pair_writing};
ghost use Rattle.amqp_described.specs.DescribedType.{pair_of, described_of, described_agreement};

use amqp_codec::{DeserializeTerm, Serialize, SerializeTerm};
use amqp_decoder::Decoder;
use amqp_encoder::{Encoder, Pass};
use amqp_wire::{ByteSource, Descriptor, Error};
use std::alloc::Global;

/// A value under a descriptor of its own, which identifies what the value means (Part 1, sections 1.2 and 1.5). A descriptor is read in any
/// encoding of a symbol or a ulong, and written in the shortest.
///
/// In reading, any other descriptor is `BadDescriptor`, and a symbol that isn't ASCII is `NonAscii`. What isn't described is `WrongType`,
/// and what nests more than 128 deep is `Depth`. In writing, a symbol that isn't ASCII is `NonAscii`, and items of an array with different
/// descriptors are `MixedArray`. The errors of the value itself may be returned, too.
#[derive(Debug, PartialEq, Eq, PartialOrd, Ord, Hash, Drop)]
pub struct Described<T> {
    /// What identifies the meaning of the value.
    pub descriptor: Descriptor,
    /// The value.
    pub value: T,
}

impl<T> Described<T> {
    /// Returns a clone, whose descriptor is a copy and whose value is a clone. It returns `Memory` if an allocation fails.
    pub fn clone(&self) -> Result<Described<T>, Error>
    where
        T: Clone + Drop,
        ensures descriptor { IfOk result (λ copy. descriptor_of copy.descriptor ≡ descriptor_of self.now.descriptor) }
        ensures value { IfOk result (λ copy. T.is_clone self.now.value copy.value) }
        ensures memory { IfErr result (λ e. e ≡ Memory) }
    {
        Ok(Described {
            descriptor: self.descriptor.clone()?,
            value: self.value.clone()?,
        })
    }
}

// The number of a descriptor fits in eight bytes.
fn in_range(descriptor: &Descriptor)
    ensures { IsInRange (descriptor_value (descriptor_of descriptor.now)) }
{
    match descriptor {
        Descriptor::Name(_) => {}
        Descriptor::Code(code) => {
            let _code = *code;
        }
    }
}

impl<T: SerializeTerm> Serialize for Described<T> {
    ghost writing = { via_writing pair_of (pair_writing any_descriptor T.writing) };

    fn serialize<P: Pass>(&self, encoder: &mut Encoder<P>) -> Result<(), Error> {
        encoder.begin_described(&self.descriptor)?;
        self.value.serialize(encoder)?;
        encoder.end_described()
    }

    fn in_type(&self) {
        in_range(&self.descriptor);
        self.value.in_type()
    }
}

impl<T: SerializeTerm> SerializeTerm for Described<T> {
    fn is_null(&self) -> bool {
        false
    }

    ghost is_term = { λ v. refl };
}

impl<T: DeserializeTerm> DeserializeTerm for Described<T> {
    ghost term = { described_of T.term };

    fn read_value<R: ByteSource>(
        decoder: &mut Decoder<R>,
        alloc: Global,
    ) -> Result<Described<T>, Error> {
        let descriptor = decoder.begin_described(alloc)?;
        in_range(&descriptor);
        let value = T::read_value(decoder, alloc)?;
        decoder.end_described()?;
        Ok(Described { descriptor, value })
    }

    ghost agreement = { described_agreement T.agreement };
}
