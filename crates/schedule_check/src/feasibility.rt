//! The check of a printed schedule.

ghost use Rattle.std.specs.Prelude.{◌≡◌, IfOk, IfErr, Some};
ghost use Rattle.uc_model.specs.Prelude.{IsLawfulInstance, HasShapeOf, printed_cost as printed_cost_of, printed_denominator, printed_schedule, Obeys};
ghost use Rattle.schedule_check.specs.FirstBroken.{IsFirstBroken};
ghost use Rattle.schedule_check.specs.SizedNumbers.{HasSizedNumbers};
ghost use Rattle.schedule_check.specs.WholeWatts.{IsFirstBrokenOf, IsFirstUnitBroken};

use crate::broken::Broken;
use crate::pricing::printed_cost;
use crate::unit_rule::UNIT_RULES;
use crate::{balance, renewable, shortages, unit_rules};
use uc_model::{Instance, Printed};

/// The printed cost of the schedule, in micro-dollars, where the schedule that it stands for obeys M1 to M17; else the
/// first rule, unit and period at which it breaks one. It takes no memory.
///
/// The schedule has a row for each unit of the instance, with a cell for each period, and what is missing of demand and
/// reserve in each period; the numerators of its outputs and reserves are below 10^15 in size, and a category is any
/// number.
pub fn check(instance: &Instance, printed: &Printed) -> Result<i64, Broken>
    requires lawful { IsLawfulInstance instance.now }
    requires shape { HasShapeOf instance.now printed.now }
    requires sized { HasSizedNumbers printed.now }
    ensures obeys { IfOk result (λ cost. let q = printed_denominator instance.now printed.now in
        Obeys instance.now q (printed_schedule instance.now printed.now q)) }
    ensures cost { IfOk result (λ cost. cost ≡ printed_cost_of instance.now printed.now) }
    ensures broken { IfErr result (λ broken. let q = printed_denominator instance.now printed.now in
        IsFirstBroken instance.now q (printed_schedule instance.now printed.now q) broken) }
{
    match first_broken(instance, printed) {
        Some(broken) => Err(broken),
        None => Ok(cost(instance, printed)),
    }
}

/// The printed cost, in micro-dollars, of a schedule that obeys M1 to M17. It takes no memory.
pub fn cost(instance: &Instance, printed: &Printed) -> i64
    requires lawful { IsLawfulInstance instance.now }
    requires shape { HasShapeOf instance.now printed.now }
    requires obeys { let q = printed_denominator instance.now printed.now in
        Obeys instance.now q (printed_schedule instance.now printed.now q) }
    ensures { result ≡ printed_cost_of instance.now printed.now }
{
    printed_cost(instance, printed) as i64
}

// The first place at which the schedule breaks a rule.
fn first_broken(instance: &Instance, printed: &Printed) -> Option<Broken>
    requires lawful { IsLawfulInstance instance.now }
    requires shape { HasShapeOf instance.now printed.now }
    requires sized { HasSizedNumbers printed.now }
    ensures { IsFirstBrokenOf instance.now printed.now result }
{
    if let Some(broken) = first_broken_by_unit(instance, printed) {
        return Some(broken);
    }
    if let Some(place) = renewable::first_place(instance, printed) {
        return Some(Broken {
            rule: 13,
            unit: place.unit,
            period: place.period,
        });
    }
    if let Some(period) = balance::first_unbalanced(instance, printed) {
        return Some(Broken {
            rule: 14,
            unit: 0,
            period,
        });
    }
    if let Some(period) = balance::first_short_of_reserve(instance, printed) {
        return Some(Broken {
            rule: 15,
            unit: 0,
            period,
        });
    }
    if let Some(period) = shortages::first_shed(instance, printed) {
        return Some(Broken {
            rule: 16,
            unit: 0,
            period,
        });
    }
    if let Some(period) = shortages::first_short(instance, printed) {
        return Some(Broken {
            rule: 17,
            unit: 0,
            period,
        });
    }
    None
}

// The first place at which a thermal unit breaks a rule.
fn first_broken_by_unit(instance: &Instance, printed: &Printed) -> Option<Broken>
    requires lawful { IsLawfulInstance instance.now }
    requires shape { HasShapeOf instance.now printed.now }
    requires sized { HasSizedNumbers printed.now }
    ensures { IsFirstUnitBroken instance.now printed.now result }
{
    for rule in UNIT_RULES {
        if let Some(place) = unit_rules::first_place(rule, instance, printed) {
            return Some(Broken {
                rule: rule.number(),
                unit: place.unit,
                period: place.period,
            });
        }
    }
    None
}
