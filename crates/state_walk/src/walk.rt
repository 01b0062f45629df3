//! The walk: the least value of one unit's patterns, period by period from the last to the first.

ghost use Rattle.std.specs.Prelude.{◌≡◌, ℕ, suc, ◌+◌, ◌-◌, ◌<◌, ◌≤◌, IfSome, IfOk, IfNone, length};
ghost use Rattle.uc_model.specs.Prelude.{IsLawfulThermal, thermal_unit, period_count};
ghost use Rattle.uc_model.specs.declared.instance.Instance.{Instance};
ghost use Rattle.dual_model.specs.Prelude.{IsFixOf, AreSizedTerms, IsLeastValue, AreTermsOf, IsUnitValueOf, cost_to_go, IsWithin, MAX_COST_TO_GO, total_of, lesser_of};
ghost use Rattle.dual_model.specs.declared.node.Node.{Node};
ghost use Rattle.dual_model.specs.declared.table.Table.{Table};
ghost use Rattle.dual_model.specs.PatternValue.{HasNoPattern};
ghost use Rattle.state_walk.specs.inside.WalkTable.{entry, IsTable};

use crate::moves::move_cost;
use dual_model::Fix;
use dual_model::moves::hour_before;
use std::alloc::Global;
use std::marker::Model;
use uc_model::{NoMemory, Terms, Thermal};

/// The least cost from a state before a period to the end of the horizon, where the unit is on, and where it
/// is off; `None` where no pattern goes on from there.
#[derive(Clone, Copy)]
pub(crate) struct CostToGo {
    pub(crate) on: Option<i128>,
    pub(crate) off: Option<i128>,
}

/// The memory of walks over a number of periods, which contracts see as that number: an entry for each time
/// since which a state may last.
#[derive(Drop)]
pub struct Walk {
    values: Vec<CostToGo>,
}

impl Model for Walk {
    ghost use Rattle.std.specs.Prelude.{ℕ, ◌-◌, ◌≤◌, length};

    ghost Value = { ℕ };

    ghost view = { λ walk. length walk.values.items - 1 };

    ghost invariant = { λ walk. 1 ≤ length walk.values.items };
}

impl Walk {
    /// The memory of walks over `periods` periods. The only error is `NoMemory`.
    pub fn new(alloc: Global, periods: usize) -> Result<Walk, NoMemory>
        ensures { IfOk result (λ walk. walk ≡ periods) }
    {
        let Some(times) = periods.checked_add(1) else {
            return Err(NoMemory);
        };
        let none = CostToGo {
            on: None,
            off: None,
        };
        let values = vec![in alloc; none; times]?;
        Ok(Walk { values })
    }
}

/// The value of one unit, exact: the least value of a pattern that is allowed and as `fix` decides, by the
/// unit's `terms`; `None` exactly where there is no such pattern. Where the terms are those of a unit of an
/// instance at a price table, this is the unit's value there. Takes no memory, and a time that grows as the
/// square of the number of periods.
pub fn least(walk: &mut Walk, terms: &Terms, unit: &Thermal, fix: &Fix) -> Option<i128>
    requires lawful { IsLawfulThermal unit.now }
    requires sized { AreSizedTerms unit.now terms.now }
    requires room { walk.old ≡ period_count terms.now }
    ensures kept { walk.new ≡ walk.old }

    ensures value { IfSome result (IsLeastValue terms.now unit.now fix.now) }
    ensures none { IfNone result (HasNoPattern terms.now unit.now fix.now) }
    ensures size { IsWithin MAX_COST_TO_GO result }
    ensures unit_value { (instance : Instance) (node : Node) (table : Table) (g : ℕ)
        → thermal_unit instance g ≡ unit.now → AreTermsOf instance table g terms.now
        → IsFixOf instance.periods node g fix.now → IsUnitValueOf instance node table g result }
{
    least_cost_to_go(walk.values.as_mut_slice(), terms, unit, fix)
}

// The least cost of a unit from the beginning on, by the table `values`, which it fills.
fn least_cost_to_go(
    values: &mut [CostToGo],
    terms: &Terms,
    unit: &Thermal,
    fix: &Fix,
) -> Option<i128>
    requires lawful { IsLawfulThermal unit.now }
    requires sized { AreSizedTerms unit.now terms.now }
    requires room { length values.old ≡ period_count terms.now + 1 }
    ensures { result ≡ cost_to_go terms.now unit.now fix.now (period_count terms.now) 0 unit.now.on0 0 }
{
    let periods = terms.terms.as_slice().len();
    end(values, terms, unit, fix);
    for back in 0..periods {
        step(values, terms, unit, fix, periods - 1 - back);
    }
    let first = values[0];
    if unit.on0 { first.on } else { first.off }
}

// The table after the last period.
fn end(values: &mut [CostToGo], terms: &Terms, unit: &Thermal, fix: &Fix)
    requires lawful { IsLawfulThermal unit.now }
    requires sized { AreSizedTerms unit.now terms.now }
    requires room { length values.old ≡ period_count terms.now + 1 }
    ensures { IsTable terms.now unit.now fix.now 0 (period_count terms.now) values.new }
{
    let periods = terms.terms.as_slice().len();
    for since in 0..periods + 1 {
        let on = hour_before(terms, unit, periods, since == periods, false);
        values[since] = CostToGo { on, off: Some(0) };
    }
}

// The table before period t, from the one after it.
fn step(values: &mut [CostToGo], terms: &Terms, unit: &Thermal, fix: &Fix, t: usize)
    requires lawful { IsLawfulThermal unit.now }
    requires sized { AreSizedTerms unit.now terms.now }
    requires room { length values.old ≡ period_count terms.now + 1 }
    requires period { t < period_count terms.now }
    requires later { IsTable terms.now unit.now fix.now (period_count terms.now - suc t) (suc t) values.old }
    ensures { IsTable terms.now unit.now fix.now (period_count terms.now - t) t values.new }
{
    let switched = values[t + 1];
    for since in 0..t + 1 {
        values[since] = entry_before(terms, unit, fix, t, since, values[since], switched);
    }
}

/// The total of two costs; `None` is what may not be.
pub(crate) fn total(a: Option<i128>, b: Option<i128>) -> Option<i128>
    requires left { IsWithin MAX_COST_TO_GO a }
    requires right { IsWithin MAX_COST_TO_GO b }
    ensures { result ≡ total_of a b }
{
    match (a, b) {
        (Some(a), Some(b)) => Some(a + b),
        _ => None,
    }
}

/// The lesser of two costs.
pub(crate) fn lesser(a: Option<i128>, b: Option<i128>) -> Option<i128>
    ensures { result ≡ lesser_of a b }
{
    match (a, b) {
        (Some(a), Some(b)) => Some(a.min(b)),
        (Some(a), None) => Some(a),
        (None, b) => b,
    }
}

// The entry before period t for a time since which the state lasts, from the one after it and the entry of a
// unit that is switched in the period.
fn entry_before(
    terms: &Terms,
    unit: &Thermal,
    fix: &Fix,
    t: usize,
    since: usize,
    later: CostToGo,
    switched: CostToGo,
) -> CostToGo
    requires lawful { IsLawfulThermal unit.now }
    requires sized { AreSizedTerms unit.now terms.now }
    requires period { t < period_count terms.now }
    requires past { since ≤ t }
    requires after { later ≡ entry terms.now unit.now fix.now (period_count terms.now - suc t) (suc t) since }
    requires entered { switched ≡ entry terms.now unit.now fix.now (period_count terms.now - suc t) (suc t) (suc t) }
    ensures { result ≡ entry terms.now unit.now fix.now (period_count terms.now - t) t since }
{
    CostToGo {
        on: lesser(
            total(move_cost(terms, unit, fix, t, true, since, true), later.on),
            total(
                move_cost(terms, unit, fix, t, true, since, false),
                switched.off,
            ),
        ),
        off: lesser(
            total(
                move_cost(terms, unit, fix, t, false, since, true),
                switched.on,
            ),
            total(
                move_cost(terms, unit, fix, t, false, since, false),
                later.off,
            ),
        ),
    }
}
