//! The rules on the whole system: M14 and M15.

ghost use Rattle.std.specs.Prelude.{◌≡◌, ◌*◌, ◌^◌, ◌<◌, ◌≤◌, [], pos, ◌*ℤ◌, ◌+ℤ◌, length, slice_index_or, unsigned_abs};
ghost use Rattle.uc_model.specs.Prelude.{bit, sum_below, IsLawfulInstance, HasShapeOf, cell_at, shed_at, short_at, thermal_count};
ghost use Rattle.schedule_check.specs.SizedNumbers.{output_at};
ghost use Rattle.schedule_check.specs.inside.Failures.{IsFirstFailure};
ghost use Rattle.schedule_check.specs.WholeWatts.{demand_holds, over, reserve_holds, reserve_supply_at, row_of, supply_by, thermal_supply_by as thermal_supply_of};
ghost use Rattle.schedule_check.specs.inside.Supplies.{given_at, units_of};

use crate::limits::numerator;
use uc_model::{Cell, Instance, Printed, sum};

/// As many units of a kind as there may be.
const MOST_UNITS: u64 = 4096;

/// More than the numerator of a cell's total output: 2^72.
const MOST_OUTPUT: u128 = 4_722_366_482_869_645_213_696;

/// The first period in which the units' output, with the demand that stays unserved, isn't demand.
pub(crate) fn first_unbalanced(instance: &Instance, printed: &Printed) -> Option<usize>
    requires lawful { IsLawfulInstance instance.now }
    requires shape { HasShapeOf instance.now printed.now }
    ensures { IsFirstFailure instance.now.periods (demand_holds (over printed.now.denominator) instance.now printed.now) result }
{
    for t in 0..instance.periods as usize {
        if !is_balanced(instance, printed, t) {
            return Some(t);
        }
    }
    None
}

/// The first period in which reserve, with what is missing of it, is below what is required.
pub(crate) fn first_short_of_reserve(instance: &Instance, printed: &Printed) -> Option<usize>
    requires lawful { IsLawfulInstance instance.now }
    requires shape { HasShapeOf instance.now printed.now }
    ensures { IsFirstFailure instance.now.periods (reserve_holds (over printed.now.denominator) instance.now printed.now) result }
{
    for t in 0..instance.periods as usize {
        if !has_reserve(instance, printed, t) {
            return Some(t);
        }
    }
    None
}

// Whether the units' output in period t, with the demand that stays unserved, is demand.
fn is_balanced(instance: &Instance, printed: &Printed, t: usize) -> bool
    requires lawful { IsLawfulInstance instance.now }
    requires shape { HasShapeOf instance.now printed.now }
    requires period { t < instance.now.periods }
    ensures { result ≡ demand_holds (over printed.now.denominator) instance.now printed.now t }
{
    served(instance, printed, t) == numerator(printed.denominator, instance.demand.as_slice()[t])
}

// What all units give in period t, with the demand that stays unserved.
fn served(instance: &Instance, printed: &Printed, t: usize) -> i128
    requires lawful { IsLawfulInstance instance.now }
    requires shape { HasShapeOf instance.now printed.now }
    requires period { t < instance.now.periods }
    ensures { result ≡ supply_by (over printed.now.denominator) instance.now printed.now t +ℤ shed_at printed.now t }
{
    sum(
        supply(instance, printed, t),
        missing(printed.shed.as_slice(), t),
    )
}

// What all units give in period t.
fn supply(instance: &Instance, printed: &Printed, t: usize) -> i128
    requires lawful { IsLawfulInstance instance.now }
    requires shape { HasShapeOf instance.now printed.now }
    requires period { t < instance.now.periods }
    ensures value { result ≡ supply_by (over printed.now.denominator) instance.now printed.now t }
    ensures size { unsigned_abs result ≤ 2 * (MOST_UNITS * MOST_OUTPUT) }
{
    sum(
        supplied(Kind::Thermal, instance, printed, t),
        supplied(Kind::Renewable, instance, printed, t),
    )
}

// Whether reserve in period t, with what is missing of it, is at least what is required.
fn has_reserve(instance: &Instance, printed: &Printed, t: usize) -> bool
    requires lawful { IsLawfulInstance instance.now }
    requires shape { HasShapeOf instance.now printed.now }
    requires period { t < instance.now.periods }
    ensures { result ≡ reserve_holds (over printed.now.denominator) instance.now printed.now t }
{
    numerator(printed.denominator, instance.reserves.as_slice()[t]) <= held(instance, printed, t)
}

// The reserve in period t, with what is missing of it.
fn held(instance: &Instance, printed: &Printed, t: usize) -> i128
    requires lawful { IsLawfulInstance instance.now }
    requires shape { HasShapeOf instance.now printed.now }
    requires period { t < instance.now.periods }
    ensures { result ≡ reserve_supply_at instance.now printed.now t +ℤ short_at printed.now t }
{
    sum(
        supplied(Kind::Reserve, instance, printed, t),
        missing(printed.short.as_slice(), t),
    )
}

// What is missing in period t.
fn missing(shortages: &[i64], t: usize) -> i128
    requires { t < length shortages.now }
    ensures value { result ≡ slice_index_or shortages.now t (pos 0) }
    ensures size { unsigned_abs result ≤ 2 ^ 63 }
{
    i128::from(shortages[t])
}

// What is summed over units: outputs of the thermal units with their minimums, their reserves, or the outputs of the renewable units.
#[derive(Clone, Copy)]
pub(crate) enum Kind {
    Thermal,
    Reserve,
    Renewable,
}

// The sum over all units in period t.
fn supplied(kind: Kind, instance: &Instance, printed: &Printed, t: usize) -> i128
    requires lawful { IsLawfulInstance instance.now }
    requires shape { HasShapeOf instance.now printed.now }
    requires period { t < instance.now.periods }
    ensures value { result ≡ sum_below (units_of kind instance.now) (λ i. given_at kind instance.now printed.now i t) }
    ensures size { unsigned_abs result ≤ MOST_UNITS * MOST_OUTPUT }
{
    let mut total = 0;
    for i in 0..units(kind, instance) {
        total = sum(total, given(kind, instance, printed, i, t));
    }
    total
}

// How many units there are of the kind.
fn units(kind: Kind, instance: &Instance) -> usize
    requires { IsLawfulInstance instance.now }
    ensures value { result ≡ units_of kind instance.now }
    ensures few { result ≤ MOST_UNITS }
{
    match kind {
        Kind::Thermal => instance.thermal.as_slice().len(),
        Kind::Reserve => instance.thermal.as_slice().len(),
        Kind::Renewable => instance.renewable.as_slice().len(),
    }
}

// What unit i gives in period t.
fn given(kind: Kind, instance: &Instance, printed: &Printed, i: usize, t: usize) -> i128
    requires lawful { IsLawfulInstance instance.now }
    requires shape { HasShapeOf instance.now printed.now }
    requires unit { i < units_of kind instance.now }
    requires period { t < instance.now.periods }
    ensures value { result ≡ given_at kind instance.now printed.now i t }
    ensures size { unsigned_abs result ≤ MOST_OUTPUT }
{
    match kind {
        Kind::Thermal => thermal_output(instance, printed, i, t),
        Kind::Reserve => wide(cell(printed, i, t).r),
        Kind::Renewable => wide(output(printed, i, t)),
    }
}

// What thermal unit g gives in period t: its output above the minimum, and the minimum where it is on.
fn thermal_output(instance: &Instance, printed: &Printed, g: usize, t: usize) -> i128
    requires lawful { IsLawfulInstance instance.now }
    requires shape { HasShapeOf instance.now printed.now }
    requires unit { g < thermal_count instance.now }
    requires period { t < instance.now.periods }
    ensures value { result ≡ thermal_supply_of (over printed.now.denominator) instance.now printed.now g t }
    ensures size { unsigned_abs result ≤ MOST_OUTPUT }
{
    let minimum = instance.thermal.as_slice()[g].pmin;
    total_output(printed.denominator, minimum, &cell(printed, g, t))
}

fn total_output(denominator: u8, minimum: i64, cell: &Cell) -> i128
    ensures value { result ≡ cell.now.p +ℤ over denominator (minimum *ℤ bit cell.now.on) }
    ensures size { unsigned_abs result ≤ MOST_OUTPUT }
{
    sum(wide(cell.p), numerator(denominator, part(minimum, cell.on)))
}

// A unit's minimum where it is on, and else 0.
fn part(minimum: i64, on: bool) -> i64
    ensures { result ≡ minimum *ℤ bit on }
{
    if on { minimum } else { 0 }
}

// The cell of thermal unit g in period t.
fn cell(printed: &Printed, g: usize, t: usize) -> Cell
    requires unit { g < length printed.now.thermal }
    requires period { t < length (row_of printed.now g) }
    ensures { result ≡ cell_at printed.now g t }
{
    printed.thermal.as_slice()[g].as_slice()[t]
}

// The output of renewable unit w in period t.
fn output(printed: &Printed, w: usize, t: usize) -> i64
    requires unit { w < length printed.now.renewable }
    requires period { t < length (slice_index_or printed.now.renewable w []) }
    ensures { result ≡ output_at printed.now w t }
{
    printed.renewable.as_slice()[w].as_slice()[t]
}

// A number of a schedule in 128 bits.
fn wide(number: i64) -> i128
    ensures value { result ≡ number }
    ensures size { unsigned_abs result ≤ 2 ^ 63 }
{
    i128::from(number)
}
