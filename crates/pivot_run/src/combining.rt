//! A row times a number, less another row times a number.
ghost use Rattle.std.specs.Prelude.{◌≡◌, ◌⊎◌, ℕ, None, ◌*◌, ◌^◌, ◌<◌, ◌≤◌, ◌-ℤ◌, ◌*ℤ◌, length, unsigned_abs, IfOk, IfErr, IfSome, OnOk};
ghost use Rattle.pivot_run.specs.Halts.{IfMet};
ghost use Rattle.pivot_run.specs.Pivots.{IsWide};
ghost use Rattle.pivot_run.specs.inside.Entries.{AreBelow, AreEntries, CombiningForms, IsCombined, IsNext, number_at};

use crate::entries::Entries;
use crate::halt::Halt;
use crate::wide::{Wide, product};

/// Writes into `made` the row times the pivot, less the factor times the other row.
pub(crate) fn combine(
    row: &Entries,
    other: &Entries,
    pivot: &i128,
    factor: &i128,
    made: &mut Entries,
) -> Result<(), Halt<Wide>>
    requires row { AreEntries row.now.columns.items row.now.numbers.items }
    requires other { AreEntries other.now.columns.items other.now.numbers.items }
    ensures made { OnOk result ((n : ℕ) → AreBelow row.now.columns.items n → AreBelow other.now.columns.items n
        → IsCombined (number_at row.now.columns.items row.now.numbers.items) (number_at other.now.columns.items other.now.numbers.items) pivot.now factor.now
        made.new.columns.items made.new.numbers.items n) }
    ensures wide { IfErr result (IfMet (λ wide. CombiningForms (number_at row.now.columns.items row.now.numbers.items)
        (number_at other.now.columns.items other.now.numbers.items) pivot.now factor.now row.now.columns.items other.now.columns.items wide.size wide.other
        × IsWide wide.size wide.other)) }
{
    made.clear();
    let mut a = 0;
    let mut b = 0;
    'columns: while let Some(c) = next_column(row, a, other, b) {
        let number = combined(row.number(a, c), pivot, factor, other.number(b, c))?;
        made.add(c, &number)?;
        a = row.past(a, c);
        b = other.past(b, c);
    }
    Ok(())
}

// The next column of two rows.
fn next_column(row: &Entries, a: usize, other: &Entries, b: usize) -> Option<usize>
    ensures next { IfSome result (IsNext row.now.columns.items a other.now.columns.items b) }
    ensures none { result ≡ None → (length row.now.columns.items ≤ a) × (length other.now.columns.items ≤ b) }
{
    match (row.columns.get(a), other.columns.get(b)) {
        (Some(c), Some(d)) => Some((*c).min(*d)),
        (Some(c), None) => Some(*c),
        (None, Some(d)) => Some(*d),
        (None, None) => None,
    }
}

// The number times the pivot, less the factor times the other number.
fn combined(number: &i128, pivot: &i128, factor: &i128, other: &i128) -> Result<i128, Wide>
    ensures value { IfOk result (λ z. z ≡ number.now *ℤ pivot.now -ℤ factor.now *ℤ other.now) }
    ensures size { IfOk result (λ z. unsigned_abs z < 2 ^ 127) }
    ensures first { OnOk result (unsigned_abs number.now * unsigned_abs pivot.now < 2 ^ 126) }
    ensures second { OnOk result (unsigned_abs factor.now * unsigned_abs other.now < 2 ^ 126) }
    ensures wide { IfErr result (λ wide. (((wide.size ≡ number.now) × (wide.other ≡ pivot.now)) ⊎ ((wide.size ≡ factor.now) × (wide.other ≡ other.now)))
        × IsWide wide.size wide.other) }
{
    let first = product(number, pivot)?;
    let second = product(factor, other)?;
    Ok(first - second)
}
