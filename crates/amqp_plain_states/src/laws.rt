//! What holds for these types in addition to the laws of every type. The functions do nothing; their contracts are proved.
ghost use Rattle.std.specs.Prelude.{◌≡◌, false};
ghost use Rattle.std.specs.Ordering.{nat_cmp, ordering_then};

use crate::{Accepted, Received, Released};
use amqp_codec::Deserialize;

/// They are read without allocating, so `from_slice` never returns `Memory` for them.
pub fn reading_takes_no_memory()
    ensures accepted { ⟦<Accepted as Deserialize>⟧.reading.takes_memory ≡ false }
    ensures received { ⟦<Received as Deserialize>⟧.reading.takes_memory ≡ false }
    ensures released { ⟦<Released as Deserialize>⟧.reading.takes_memory ≡ false }
{}

/// Received states are ordered by the numbers of their sections, and then by the offsets in them.
pub fn orders()
    ensures received { (a b : _) → ⟦<Received as Ord>⟧.cmp a b
        ≡ ordering_then (nat_cmp a.section_number b.section_number) (nat_cmp a.section_offset b.section_offset) }
{}
