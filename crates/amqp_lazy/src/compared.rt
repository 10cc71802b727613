//! Equality, order, hash and clones of a `LazyValue`, which are those of its bytes.
ghost use Rattle.std.specs.Prelude.{◌≡◌, Some, nat_eq, refl};
ghost use Rattle.std.specs.Ordering.{nat_cmp};
ghost use Rattle.std.specs.Cmp.{on_per, on_equiv, on_po, on_total, unsigned_po, partial_equiv_from_equiv};
ghost use Rattle.std.specs.Cmp.Lexicographic.{pointwise, slice_cmp, slice_partial_cmp};
ghost use Rattle.std.specs.Cmp.Lexicographic.{lists_po, lists_agrees, texts_ties};
ghost use Rattle.std.proofs.lemmas.Cmp.{nat_list_eq_equiv, nat_list_cmp_total};
ghost use Rattle.std.specs.Hash as fed;
ghost use Rattle.std.specs.Hash.{on_Alike, items_Alike, same_Alike};
ghost use Rattle.std.proofs.lemmas.Bool.Decides.{Decides-eqb};
ghost use Rattle.amqp_lazy.specs.LazyType.{lazy_bytes};

use crate::LazyValue;
use std::cmp::Ordering;
use std::hash::{Hash, Hasher};

impl PartialEq for LazyValue {
    ghost eq = { λ v w. pointwise nat_eq v.bytes.items w.bytes.items };

    ghost laws = { on_per lazy_bytes (partial_equiv_from_equiv nat_list_eq_equiv) };

    fn eq(&self, other: &LazyValue) -> bool {
        self.as_slice() == other.as_slice()
    }
}

impl Eq for LazyValue {
    ghost laws = { on_equiv lazy_bytes nat_list_eq_equiv };
}

impl PartialOrd for LazyValue {
    ghost partial_cmp = { λ v w. slice_partial_cmp (λ x y. Some (nat_cmp x y)) v.bytes.items w.bytes.items };

    ghost laws = { on_po lazy_bytes (lists_po unsigned_po) };

    fn partial_cmp(&self, other: &LazyValue) -> Option<Ordering> {
        self.as_slice().partial_cmp(other.as_slice())
    }
}

impl Ord for LazyValue {
    ghost cmp = { λ v w. slice_cmp nat_cmp v.bytes.items w.bytes.items };

    ghost total = { on_total lazy_bytes nat_list_cmp_total };

    ghost matches_partial_cmp = { λ v w. lists_agrees (λ x y. refl) v.bytes.items w.bytes.items };

    ghost matches_eq = { λ v w. texts_ties v.bytes.items w.bytes.items };

    fn cmp(&self, other: &LazyValue) -> Ordering {
        self.as_slice().cmp(other.as_slice())
    }
}

impl Hash for LazyValue {
    ghost hash_input = { λ v. fed.slice fed.u8 v.bytes.items };

    ghost respects_eq = { (on_Alike lazy_bytes (items_Alike (same_Alike fed.u8 Decides-eqb))).fed };

    fn hash<H: Hasher>(&self, state: &mut H) {
        self.as_slice().hash(state);
    }
}
