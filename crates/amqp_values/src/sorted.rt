//! Items that are sorted, to determine whether two of them are equal.
ghost use Rattle.std.specs.Bool.{Decides};
ghost use Rattle.std.specs.List.{IsDistinct};
ghost use Rattle.std.specs.List.Sorted.{IsStrictlySortedBy};
ghost use Rattle.std.specs.Ordering.{eq_by_cmp};

// Whether each item is less than the next.
fn rises<T: Ord>(items: &[T]) -> bool
    ensures { Decides result (IsStrictlySortedBy T.cmp items.now) }
{
    for index in 1..items.len() {
        if !items[index - 1].cmp(&items[index]).is_lt() {
            return false;
        }
    }
    true
}

/// Sorts the items, and returns whether no two of them are equal.
pub(crate) fn are_apart<T: Ord + Drop>(mut items: Vec<T>) -> bool
    ensures { Decides result (IsDistinct (eq_by_cmp T.cmp) items.items) }
{
    items.sort_unstable();
    rises(items.as_slice())
}
