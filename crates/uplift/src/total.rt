//! The duality gap, and what some numbers leave of it.

ghost use Rattle.std.specs.Prelude.{◌≡◌, ◌*◌, ◌≤◌, ◌+ℤ◌, ◌-ℤ◌, ◌*ℤ◌, length, unsigned_abs, All};
ghost use Rattle.uc_model.specs.Prelude.{IsLawfulInstance, HasShapeOf, printed_cost, printed_denominator, printed_schedule, Obeys};
ghost use Rattle.dual_model.specs.Prelude.{MAX_VALUE, IsLawfulTable};
ghost use Rattle.uplift.specs.Sizes.{MAX_GAP, MAX_KNOWN, MAX_UPLIFT};
ghost use Rattle.uplift.specs.inside.Lists.{sum_in};

use dual_model::Table;
use schedule_check::cost;
use uc_model::limits::MAX_UNITS;
use uc_model::{Instance, Printed, difference, scaled, sum};

/// K times the printed cost, less the value of the root.
pub(crate) fn gap(instance: &Instance, printed: &Printed, table: &Table, value: i128) -> i128
    requires lawful { IsLawfulInstance instance.now }
    requires shape { HasShapeOf instance.now printed.now }
    requires obeys { let q = printed_denominator instance.now printed.now in Obeys instance.now q (printed_schedule instance.now printed.now q) }
    requires table { IsLawfulTable instance.now table.now }
    requires value { unsigned_abs value ≤ MAX_VALUE }
    ensures value { result ≡ table.now.k *ℤ printed_cost instance.now printed.now -ℤ value }
    ensures size { unsigned_abs result ≤ MAX_GAP }
{
    difference(scaled(table.k(), cost(instance, printed)), value)
}

/// What is left of the total when other numbers are taken away: one that is known, and two lists of them.
pub(crate) fn rest(total: i128, known: i128, first: &[i128], second: &[i128]) -> i128
    requires total { unsigned_abs total ≤ MAX_GAP }
    requires known { unsigned_abs known ≤ MAX_KNOWN }
    requires first { (length first.now ≤ MAX_UNITS) × All (λ n. unsigned_abs n ≤ MAX_UPLIFT) first.now }
    requires second { (length second.now ≤ MAX_UNITS) × All (λ n. unsigned_abs n ≤ MAX_UPLIFT) second.now }
    ensures { result ≡ total -ℤ (known +ℤ (sum_in first.now +ℤ sum_in second.now)) }
{
    let lists = sum(sum_of(first), sum_of(second));
    difference(total, sum(known, lists))
}

// The sum of the numbers.
fn sum_of(numbers: &[i128]) -> i128
    requires few { length numbers.now ≤ MAX_UNITS }
    requires sizes { All (λ n. unsigned_abs n ≤ MAX_UPLIFT) numbers.now }
    ensures value { result ≡ sum_in numbers.now }
    ensures size { unsigned_abs result ≤ MAX_UNITS * MAX_UPLIFT }
{
    let mut total = 0;
    for i in 0..numbers.len() {
        total = sum(total, numbers[i]);
    }
    total
}
