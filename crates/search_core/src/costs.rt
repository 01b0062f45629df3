//! Costs that may not be there yet.

ghost use Rattle.std.specs.Prelude.{◌≡◌, ◌↔◌, IsTrue, Some};
ghost use Rattle.branch_tree.specs.Prelude.{lesser_bound};

/// The lesser of a cost that may be there, and another.
pub(crate) fn least(known: &Option<i64>, cost: i64) -> Option<i64>
    ensures { result ≡ lesser_bound known.now (Some cost) }
{
    match known {
        Some(known) => Some((*known).min(cost)),
        None => Some(cost),
    }
}

/// Whether the cost is there, and is this one.
pub(crate) fn is_cost(known: &Option<i64>, cost: i64) -> bool
    ensures { IsTrue result ↔ (known.now ≡ Some cost) }
{
    match known {
        Some(known) => *known == cost,
        None => false,
    }
}
