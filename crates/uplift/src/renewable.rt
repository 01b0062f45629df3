//! The uplifts of the renewable units.

ghost use Rattle.std.specs.Prelude.{◌≡◌, ◌*◌, ◌<◌, ◌≤◌, [], ◌-ℤ◌, ◌*ℤ◌, IfOk, length, slice_index_or, unsigned_abs};
ghost use Rattle.uc_model.specs.Prelude.{IsLawfulInstance, IsPower, HasShapeOf, renewable_count, sum_below};
ghost use Rattle.dual_model.specs.Prelude.{HasSizeOf, IsPrice, IsWithinLimits};
ghost use Rattle.schedule_check.specs.SizedNumbers.{HasSizedNumbers, IsSized, output_at};
ghost use Rattle.uplift.specs.Sizes.{MAX_PRICED};
ghost use Rattle.uplift.specs.inside.Lists.{AreRenewableUplifts, best_output, renewable_uplift_at};

use dual_model::Table;
use std::alloc::Global;
use uc_model::limits::MAX_PERIODS;
use uc_model::{Instance, NoMemory, Printed, scaled, sum};

/// The uplift of each renewable unit.
pub(crate) fn renewable_uplifts(
    alloc: Global,
    instance: &Instance,
    printed: &Printed,
    table: &Table,
) -> Result<Vec<i128>, NoMemory>
    requires lawful { IsLawfulInstance instance.now }
    requires shape { HasShapeOf instance.now printed.now }
    requires sized { HasSizedNumbers printed.now }
    requires size { HasSizeOf instance.now table.now }
    requires limits { IsWithinLimits table.now }
    ensures { IfOk result (λ uplifts. AreRenewableUplifts instance.now printed.now table.now uplifts.items) }
{
    let count = instance.renewable.as_slice().len();
    let mut uplifts = vec![in alloc; 0_i128; count]?;
    for w in 0..count {
        uplifts[w] = unit_uplift(instance, printed, table, w);
    }
    Ok(uplifts)
}

// The uplift of unit w.
fn unit_uplift(instance: &Instance, printed: &Printed, table: &Table, w: usize) -> i128
    requires lawful { IsLawfulInstance instance.now }
    requires shape { HasShapeOf instance.now printed.now }
    requires sized { HasSizedNumbers printed.now }
    requires size { HasSizeOf instance.now table.now }
    requires limits { IsWithinLimits table.now }
    requires unit { w < renewable_count instance.now }
    ensures value { result ≡ sum_below instance.now.periods (renewable_uplift_at instance.now printed.now table.now w) }
    ensures size { unsigned_abs result ≤ MAX_PERIODS * MAX_PRICED }
{
    let mut total = 0;
    for t in 0..instance.periods as usize {
        total = sum(total, period_uplift(instance, printed, table, w, t));
    }
    total
}

// What it would gain in period t.
fn period_uplift(instance: &Instance, printed: &Printed, table: &Table, w: usize, t: usize) -> i128
    requires lawful { IsLawfulInstance instance.now }
    requires shape { HasShapeOf instance.now printed.now }
    requires sized { HasSizedNumbers printed.now }
    requires size { HasSizeOf instance.now table.now }
    requires limits { IsWithinLimits table.now }
    requires unit { w < renewable_count instance.now }
    requires period { t < instance.now.periods }
    ensures value { result ≡ renewable_uplift_at instance.now printed.now table.now w t }
    ensures size { unsigned_abs result ≤ MAX_PRICED }
{
    let unit = &instance.renewable.as_slice()[w];
    let price = table.pi()[t];
    let best = best(
        price,
        unit.minimum.as_slice()[t],
        unit.maximum.as_slice()[t],
    );
    gained(price, best, output(printed, w, t))
}

// The output that pays best at a price: the greatest where it is above 0, and else the least.
fn best(price: i64, least: i64, most: i64) -> i64
    requires least { IsPower least }
    requires most { IsPower most }
    ensures value { result ≡ best_output price least most }
    ensures size { IsPower result }
{
    if price > 0 { most } else { least.max(0) }
}

// What an output in place of another gains.
fn gained(price: i64, best: i64, output: i64) -> i128
    requires price { IsPrice price }
    requires best { IsPower best }
    requires output { IsSized output }
    ensures value { result ≡ price *ℤ (best -ℤ output) }
    ensures size { unsigned_abs result ≤ MAX_PRICED }
{
    scaled(price, best - output)
}

// The output of unit w in period t.
fn output(printed: &Printed, w: usize, t: usize) -> i64
    requires unit { w < length printed.now.renewable }
    requires period { t < length (slice_index_or printed.now.renewable w []) }
    ensures { result ≡ output_at printed.now w t }
{
    printed.renewable.as_slice()[w].as_slice()[t]
}
