//! What the reserve beyond what is required is worth.

ghost use Rattle.std.specs.Prelude.{◌≡◌, ◌*◌, ◌^◌, ◌<◌, ◌≤◌, ◌+ℤ◌, ◌-ℤ◌, ◌*ℤ◌, length, unsigned_abs};
ghost use Rattle.uc_model.specs.Prelude.{IsLawfulInstance, HasShapeOf, cell_at, short_at, reserve_at};
ghost use Rattle.dual_model.specs.Prelude.{HasSizeOf, IsPrice, IsWithinLimits};
ghost use Rattle.schedule_check.specs.SizedNumbers.{HasSizedNumbers};
ghost use Rattle.schedule_check.specs.WholeWatts.{reserve_supply_at, row_of};
ghost use Rattle.uplift.specs.Sizes.{MAX_SLACK, MAX_SPARE, MAX_WATTS};
ghost use Rattle.uplift.specs.Uplift.{reserve_slack as slack_of, reserve_slack_at};

use dual_model::Table;
use uc_model::limits::{MAX_PERIODS, MAX_UNITS};
use uc_model::{Instance, Printed, difference, product, sum};

/// The reserve beyond what is required at its multipliers, over all periods.
pub(crate) fn reserve_slack(instance: &Instance, printed: &Printed, table: &Table) -> i128
    requires lawful { IsLawfulInstance instance.now }
    requires shape { HasShapeOf instance.now printed.now }
    requires sized { HasSizedNumbers printed.now }
    requires size { HasSizeOf instance.now table.now }
    requires limits { IsWithinLimits table.now }
    ensures value { result ≡ slack_of instance.now printed.now table.now }
    ensures size { unsigned_abs result ≤ MAX_PERIODS * MAX_SLACK }
{
    let mut total = 0;
    for t in 0..instance.periods as usize {
        total = sum(total, period_slack(instance, printed, table, t));
    }
    total
}

// That of period t.
fn period_slack(instance: &Instance, printed: &Printed, table: &Table, t: usize) -> i128
    requires lawful { IsLawfulInstance instance.now }
    requires shape { HasShapeOf instance.now printed.now }
    requires sized { HasSizedNumbers printed.now }
    requires size { HasSizeOf instance.now table.now }
    requires limits { IsWithinLimits table.now }
    requires period { t < instance.now.periods }
    ensures value { result ≡ reserve_slack_at instance.now printed.now table.now t }
    ensures size { unsigned_abs result ≤ MAX_SLACK }
{
    slack(table.mu()[t], spare(instance, printed, t))
}

// A spare at a multiplier.
fn slack(multiplier: i64, spare: i128) -> i128
    requires multiplier { IsPrice multiplier }
    requires spare { unsigned_abs spare ≤ MAX_SPARE }
    ensures value { result ≡ multiplier *ℤ spare }
    ensures size { unsigned_abs result ≤ MAX_SLACK }
{
    product(i128::from(multiplier), spare)
}

// The reserve in period t, with what is missing of it, beyond what is required.
fn spare(instance: &Instance, printed: &Printed, t: usize) -> i128
    requires lawful { IsLawfulInstance instance.now }
    requires shape { HasShapeOf instance.now printed.now }
    requires sized { HasSizedNumbers printed.now }
    requires period { t < instance.now.periods }
    ensures value { result ≡ reserve_supply_at instance.now printed.now t +ℤ short_at printed.now t -ℤ reserve_at instance.now t }
    ensures size { unsigned_abs result ≤ MAX_SPARE }
{
    let supply = supply(instance, printed, t);
    let short = wide(printed.short.as_slice()[t]);
    let needed = wide(instance.reserves.as_slice()[t]);
    difference(sum(supply, short), needed)
}

// The reserve of all units in period t.
fn supply(instance: &Instance, printed: &Printed, t: usize) -> i128
    requires lawful { IsLawfulInstance instance.now }
    requires shape { HasShapeOf instance.now printed.now }
    requires sized { HasSizedNumbers printed.now }
    requires period { t < instance.now.periods }
    ensures value { result ≡ reserve_supply_at instance.now printed.now t }
    ensures size { unsigned_abs result ≤ MAX_UNITS * MAX_WATTS }
{
    let mut total = 0;
    for g in 0..instance.thermal.as_slice().len() {
        total = sum(total, held(printed, g, t));
    }
    total
}

// The reserve of unit g in period t.
fn held(printed: &Printed, g: usize, t: usize) -> i128
    requires sized { HasSizedNumbers printed.now }
    requires unit { g < length printed.now.thermal }
    requires period { t < length (row_of printed.now g) }
    ensures value { result ≡ (cell_at printed.now g t).r }
    ensures size { unsigned_abs result ≤ MAX_WATTS }
{
    i128::from(printed.thermal.as_slice()[g].as_slice()[t].r)
}

// A number of 64 bits in 128.
fn wide(number: i64) -> i128
    ensures value { result ≡ number }
    ensures size { unsigned_abs result ≤ 2 ^ 63 }
{
    i128::from(number)
}
