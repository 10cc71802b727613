//! What is kept of a container between the two passes.
ghost use Rattle.std.specs.Prelude.{◌≡◌, ◌<◌, ◌∷◌, ◌++◌, [], length, set, slice_index_or, OnOk};

use std::alloc::{AllocError, Global};
use std::marker::Model;

/// The bytes that the items of a list, map or array take, and how many items there are.
#[derive(Clone, Copy)]
pub(crate) struct Size {
    pub(crate) content: u32,
    pub(crate) count: u32,
}

/// The greatest content of a container: its size counts four bytes for the count too.
pub(crate) const MAX_CONTENT: u32 = 0xffff_fffb;

/// How many sizes are kept without allocating.
const FIRST: usize = 8;

/// The sizes of containers, in the order in which they begin.
#[derive(Drop)]
pub(crate) struct Sizes {
    first: [Size; FIRST],
    len: usize,
    more: Vec<Size>,
}

impl Model for Sizes {
    ghost use Rattle.std.specs.Prelude.{◌≡◌, ◌≤◌, ◌⊎◌, ◌++◌, List, [], length, take};
    ghost use Rattle.amqp_encoder.specs.declared.size.Size.{Size};

    ghost Value = { List Size };

    ghost view = { λ s. take s.len s.first ++ s.more.items };

    ghost invariant = { λ s. (s.len ≤ 8) × (length s.first ≡ 8) × ((s.len ≡ 8) ⊎ (s.more.items ≡ [])) };
}

impl Sizes {
    pub(crate) fn new(alloc: Global) -> Sizes
        ensures { result ≡ [] }
    {
        let none = Size {
            content: 0,
            count: 0,
        };
        Sizes {
            first: [none; FIRST],
            len: 0,
            more: Vec::new(alloc),
        }
    }

    #[inline(always)]
    pub(crate) fn len(&self) -> usize
        ensures { result ≡ length self.now }
    {
        self.len + self.more.len()
    }

    #[inline(always)]
    pub(crate) fn push(&mut self, size: Size) -> Result<(), AllocError>
        ensures { OnOk result (self.new ≡ self.old ++ size ∷ []) }
    {
        if self.len == FIRST {
            self.more.push(size)?;
            return Ok(());
        }
        self.first[self.len] = size;
        self.len += 1;
        Ok(())
    }

    #[inline(always)]
    pub(crate) fn get(&self, index: usize) -> Size
        requires { index < length self.now }
        ensures { result ≡ slice_index_or self.now index result }
    {
        if index < FIRST {
            self.first[index]
        } else {
            self.more[index - FIRST]
        }
    }

    #[inline(always)]
    pub(crate) fn set(&mut self, index: usize, size: Size)
        requires { index < length self.old }
        ensures { self.new ≡ set self.old index size }
    {
        if index < FIRST {
            self.first[index] = size;
        } else {
            self.more[index - FIRST] = size;
        }
    }
}
