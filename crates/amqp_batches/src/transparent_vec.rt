//! Values one after another, with nothing around them.
ghost use Rattle.std.specs.Prelude.{◌≡◌, ◌++◌, ◌∷◌, [], IfErr, OnOk, OnErr};
ghost use Rattle.std.specs.Slice.Iter.{iter_rest};
ghost use Rattle.std.specs.Vec.Iter.{into_iter_items};
ghost use Rattle.amqp_wire.specs.declared.error.Error.TheVariants.{Memory};
ghost use Rattle.amqp_batches.specs.Transparent.{vec_in};

use amqp_wire::Error;
use std::alloc::Global;
use std::ops::Deref;
use std::slice::Iter;
use std::vec::IntoIter;

/// Values of one type, one after another, with nothing around them: no list, and no single term. A message's body with several sections is
/// one (Part 3, section 3.2). It derefs to its vector. `clone` allocates; its values are clones of the values, in order.
#[derive(Clone, Debug, PartialEq, Eq, PartialOrd, Ord, Hash, Drop)]
pub struct TransparentVec<T>(Vec<T>);

impl<T> TransparentVec<T> {
    /// Returns these values, in their order.
    pub fn new(values: Vec<T>) -> TransparentVec<T>
        ensures { vec_in result ≡ values }
    {
        TransparentVec(values)
    }

    /// Moves the values out of it, and returns them.
    pub fn into_inner(self) -> Vec<T>
        ensures { result ≡ vec_in self }
    {
        let TransparentVec(values) = self;
        values
    }

    /// Adds a value after the last. If an allocation for it fails, the value is dropped, nothing changes, and the error is `Memory`.
    pub fn push(&mut self, value: T) -> Result<(), Error>
    where
        T: Drop,
        ensures added { OnOk result ((vec_in self.new).items ≡ (vec_in self.old).items ++ value ∷ []) }
        ensures kept { OnErr result ((vec_in self.new).items ≡ (vec_in self.old).items) }
        ensures memory { IfErr result (λ e. e ≡ Memory) }
    {
        match self.0.push(value) {
            Ok(()) => Ok(()),
            Err(_) => Err(Error::Memory),
        }
    }
}

impl<T> From<Vec<T>> for TransparentVec<T> {
    ghost from_gives = { λ values run. vec_in run ≡ values };

    fn from(values: Vec<T>) -> TransparentVec<T> {
        TransparentVec::new(values)
    }
}

impl<T> Deref for TransparentVec<T> {
    type Target = Vec<T>;

    ghost deref_gives = { λ run values. values ≡ vec_in run };

    fn deref(&self) -> &Vec<T> {
        &self.0
    }
}

impl<T: Drop> IntoIterator for TransparentVec<T> {
    type Item = T;

    type IntoIter = IntoIter<T, Global>;

    ghost into_iter_gives = { λ run values. into_iter_items values ≡ (vec_in run).items };

    fn into_iter(self) -> IntoIter<T, Global> {
        self.into_inner().into_iter()
    }
}

impl<'a, T> IntoIterator for &'a TransparentVec<T> {
    type Item = &'a T;

    type IntoIter = Iter<'a, T>;

    ghost into_iter_gives = { λ run values. iter_rest values ≡ (vec_in run.now).items };

    fn into_iter(self) -> Iter<'a, T> {
        self.0.iter()
    }
}
