//! Equality, order and hash of an `OrderedMap`, which are those of the list of its pairs.
ghost use Rattle.std.specs.Prelude.{◌&&◌, ◌++◌};
ghost use Rattle.std.specs.Cmp.{and_equiv, on_equiv, and_per, on_per, then_po, on_po, then_total, on_total, then_agrees, both_tied};
ghost use Rattle.std.specs.Cmp.Lexicographic.{pointwise, slice_cmp, slice_partial_cmp};
ghost use Rattle.std.specs.Cmp.Lexicographic.{lists_per, lists_equiv, lists_po, lists_total, lists_agrees, lists_ties};
ghost use Rattle.std.specs.Hash as fed;
ghost use Rattle.std.specs.Hash.{on_Alike, and-Alike, items_Alike};
ghost use Rattle.std.specs.Ordering.{ordering_then, partial_ordering_then};

use crate::OrderedMap;
use std::cmp::Ordering;
use std::hash::{Hash, Hasher};

impl<K: Eq + Hash, V: PartialEq> PartialEq for OrderedMap<K, V> {
    ghost eq = { pointwise (λ p q. K.eq p.0 q.0 && V.eq p.1 q.1) };

    ghost laws = { lists_per (and_per (on_per (λ p. p.0) K.PartialEq.laws) (on_per (λ p. p.1) V.laws)) };

    fn eq(&self, other: &OrderedMap<K, V>) -> bool {
        let mut left = self.iter();
        let mut right = other.iter();
        while let Some(pair) = left.next() {
            let Some(other_pair) = right.next() else {
                return false;
            };
            if pair != other_pair {
                return false;
            }
        }
        right.next().is_none()
    }
}

impl<K: Eq + Hash, V: Eq> Eq for OrderedMap<K, V> {
    ghost laws = { lists_equiv (and_equiv (on_equiv (λ p. p.0) K.Eq.laws) (on_equiv (λ p. p.1) V.Eq.laws)) };
}

impl<K: Ord + Hash, V: PartialOrd> PartialOrd for OrderedMap<K, V> {
    ghost partial_cmp = { slice_partial_cmp (λ p q. partial_ordering_then (K.partial_cmp p.0 q.0) (V.partial_cmp p.1 q.1)) };

    ghost laws = { lists_po (then_po (on_po (λ p. p.0) K.PartialOrd.laws) (on_po (λ p. p.1) V.PartialOrd.laws)) };

    fn partial_cmp(&self, other: &OrderedMap<K, V>) -> Option<Ordering> {
        let mut left = self.iter();
        let mut right = other.iter();
        while let Some(pair) = left.next() {
            let Some(other_pair) = right.next() else {
                return Some(Ordering::Greater);
            };
            match pair.partial_cmp(&other_pair) {
                Some(Ordering::Equal) => {}
                Some(Ordering::Less) => return Some(Ordering::Less),
                Some(Ordering::Greater) => return Some(Ordering::Greater),
                None => return None,
            }
        }
        match right.next() {
            Some(_) => Some(Ordering::Less),
            None => Some(Ordering::Equal),
        }
    }
}

impl<K: Ord + Hash, V: Ord> Ord for OrderedMap<K, V> {
    ghost cmp = { slice_cmp (λ p q. ordering_then (K.cmp p.0 q.0) (V.cmp p.1 q.1)) };

    ghost total = { lists_total (then_total (on_total (λ p. p.0) K.total) (on_total (λ p. p.1) V.total)) };

    ghost matches_partial_cmp = { lists_agrees
        (then_agrees (λ p q. K.matches_partial_cmp p.0 q.0) (λ p q. V.matches_partial_cmp p.1 q.1)) };

    ghost matches_eq = { let key = K.cmp in let value = V.cmp in
        lists_ties (λ p q. ordering_then (key p.0 q.0) (value p.1 q.1))
        (λ p q. both_tied _ _ (key p.0 q.0) (value p.1 q.1) (K.matches_eq p.0 q.0) (V.matches_eq p.1 q.1)) };

    fn cmp(&self, other: &OrderedMap<K, V>) -> Ordering {
        let mut left = self.iter();
        let mut right = other.iter();
        while let Some(pair) = left.next() {
            let Some(other_pair) = right.next() else {
                return Ordering::Greater;
            };
            match pair.cmp(&other_pair) {
                Ordering::Equal => {}
                Ordering::Less => return Ordering::Less,
                Ordering::Greater => return Ordering::Greater,
            }
        }
        match right.next() {
            Some(_) => Ordering::Less,
            None => Ordering::Equal,
        }
    }
}

impl<K: Eq + Hash, V: Hash> Hash for OrderedMap<K, V> {
    ghost hash_input = { fed.slice (λ p. K.hash_input p.0 ++ V.hash_input p.1) };

    ghost respects_eq = { let key = on_Alike (λ p. p.0) (record { fed = K.respects_eq }) in
        let value = on_Alike (λ p. p.1) (record { fed = V.respects_eq }) in
        (items_Alike (and-Alike key value)).fed };

    fn hash<H: Hasher>(&self, state: &mut H) {
        self.len().hash(state);
        let mut rest = self.iter();
        while let Some(pair) = rest.next() {
            pair.hash(state);
        }
    }
}
