//! Arrays of values of one type (Part 1, section 1.6.24).
ghost use Rattle.std.specs.Prelude.{◌≡◌, ◌++◌, ◌∷◌, [], IfErr, OnOk, OnErr, refl};
ghost use Rattle.std.specs.Slice.Iter.{iter_rest};
ghost use Rattle.std.specs.Vec.Iter.{into_iter_items};
ghost use Rattle.amqp_model.specs.Term.{array};
ghost use Rattle.amqp_wire.specs.declared.error.Error.TheVariants.{Memory};
ghost use Rattle.amqp_codec.specs.Agreement.{via_writing};
ghost use Rattle.amqp_codec.specs.ItemsWriting.{items_writing};
ghost use Rattle.amqp_containers.specs.ArrayType.{array_of, array_agreement};

use amqp_codec::kernel::{each_in_type, read_each, write_each};
use amqp_codec::{DeserializeTerm, Serialize, SerializeTerm};
use amqp_decoder::Decoder;
use amqp_encoder::{Encoder, Pass};
use amqp_wire::{ByteSource, Error};
use std::alloc::Global;
use std::ops::Deref;
use std::slice::Iter;
use std::vec::IntoIter;

/// Values of one type, which are written under one constructor (Part 1, section 1.2.4). It derefs to its vector. `clone` allocates; its
/// items are clones of the items, in order.
///
/// In writing it is refused with `MixedArray` if the constructors of its items differ, with `ZeroWidthItems` if an item is null, and with
/// `LazyInArray` if an item has kept bytes.
#[derive(Clone, Debug, PartialEq, Eq, PartialOrd, Ord, Hash, Drop)]
pub struct Array<T>(pub Vec<T>);

impl<T> Array<T> {
    /// Moves the items out of the array, and returns them.
    pub fn into_inner(self) -> Vec<T>
        ensures { result ≡ self.0 }
    {
        let Array(items) = self;
        items
    }

    /// Adds an item after the last. If an allocation for it fails, the item is dropped, nothing changes, and the error is `Memory`.
    pub fn push(&mut self, item: T) -> Result<(), Error>
    where
        T: Drop,
        ensures added { OnOk result (self.new.0.items ≡ self.old.0.items ++ item ∷ []) }
        ensures kept { OnErr result (self.new.0.items ≡ self.old.0.items) }
        ensures memory { IfErr result (λ e. e ≡ Memory) }
    {
        match self.0.push(item) {
            Ok(()) => Ok(()),
            Err(_) => Err(Error::Memory),
        }
    }
}

impl<T> From<Vec<T>> for Array<T> {
    ghost from_gives = { λ values array. array.0 ≡ values };

    fn from(values: Vec<T>) -> Array<T> {
        Array(values)
    }
}

impl<T> Deref for Array<T> {
    type Target = Vec<T>;

    ghost deref_gives = { λ array items. items ≡ array.0 };

    fn deref(&self) -> &Vec<T> {
        &self.0
    }
}

impl<T: Drop> IntoIterator for Array<T> {
    type Item = T;

    type IntoIter = IntoIter<T, Global>;

    ghost into_iter_gives = { λ array items. into_iter_items items ≡ array.0.items };

    fn into_iter(self) -> IntoIter<T, Global> {
        self.into_inner().into_iter()
    }
}

impl<'a, T> IntoIterator for &'a Array<T> {
    type Item = &'a T;

    type IntoIter = Iter<'a, T>;

    ghost into_iter_gives = { λ array items. iter_rest items ≡ array.now.0.items };

    fn into_iter(self) -> Iter<'a, T> {
        self.0.iter()
    }
}

impl<T: SerializeTerm> Serialize for Array<T> {
    ghost writing = { via_writing (λ v. v.0.items) (items_writing array tt T.writing) };

    fn serialize<P: Pass>(&self, encoder: &mut Encoder<P>) -> Result<(), Error> {
        encoder.begin_array()?;
        write_each(self.0.as_slice(), encoder)?;
        encoder.end_array()
    }

    fn in_type(&self) {
        each_in_type(self.0.as_slice())
    }
}

impl<T: SerializeTerm> SerializeTerm for Array<T> {
    fn is_null(&self) -> bool {
        false
    }

    ghost is_term = { λ v. refl };
}

impl<T: DeserializeTerm> DeserializeTerm for Array<T> {
    ghost term = { array_of T.term };

    fn read_value<R: ByteSource>(
        decoder: &mut Decoder<R>,
        alloc: Global,
    ) -> Result<Array<T>, Error> {
        let count = decoder.begin_array(alloc)?;
        let items = read_each(count, decoder, alloc)?;
        decoder.end_array()?;
        Ok(Array(items))
    }

    ghost agreement = { array_agreement T.agreement };
}
