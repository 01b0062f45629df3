//! What the end of a run gives: a ray where a sum is left, and else a cheapest schedule with its prices.
ghost use Rattle.std.specs.Prelude.{◌≡◌, true, false, length, pos, ◌≤ℤ◌, IfOk, IfErr, OnOk};
ghost use Rattle.uc_model.specs.Prelude.{IsLawfulInstance};
ghost use Rattle.pivot_run.specs.Prelude.{IsNarrow, IsWide};
ghost use Rattle.dispatch_rules.specs.Prelude.{AreAllowed, Task, scale_of};
ghost use Rattle.pivot_dispatch.specs.Answers.{IsAnswer, TableScaleForms, cost_row};
ghost use Rattle.pivot_dispatch.specs.inside.Endings.{IsEnded, IsEndedBy, IsPricedBy, Tells, leaves_sum};

use crate::pivot::{DispatchAnswer, WideCause};
use dispatch_prices::{FinalTableau, Unfit};
use dispatch_schedule::{Shown, schedule};
use dispatch_table::Start;
use dual_model::Table;
use pivot_run::{Wide, product};
use std::alloc::Global;
use uc_model::{Instance, NoMemory, Pattern};

/// The greatest scale of a table.
const MAX_SCALE: i128 = 1_000_000_000;

/// A commitment's table where its run has ended, after so many pivots.
#[derive(Clone, Copy)]
pub(crate) struct Ending<'a> {
    pub instance: &'a Instance,
    pub patterns: &'a [Pattern],
    pub last: &'a Start,
    pub pivots: u32,
}

impl Ending<'_> {
    /// What it gives.
    pub(crate) fn answer(&self, alloc: Global) -> Result<DispatchAnswer, NoMemory>
        requires lawful { IsLawfulInstance self.now.instance.now }
        requires allowed { AreAllowed self.now.instance.now self.now.patterns.now }
        requires ended { IsEnded self.now }
        ensures { IfOk result (IsAnswer self.now.instance.now self.now.patterns.now) }
    {
        if self.last.table.is_owing(self.last.limits.len()) {
            self.ray(alloc)
        } else {
            self.cheapest(alloc)
        }
    }

    // The ray, where a sum is left.
    fn ray(&self, alloc: Global) -> Result<DispatchAnswer, NoMemory>
        requires lawful { IsLawfulInstance self.now.instance.now }
        requires allowed { AreAllowed self.now.instance.now self.now.patterns.now }
        requires ended { IsEnded self.now }
        requires left { leaves_sum self.now ≡ true }
        ensures { IfOk result (IsAnswer self.now.instance.now self.now.patterns.now) }
    {
        match self
            .end()
            .prices(alloc, self.instance, self.last.limits.len(), 0)
        {
            Ok(table) => Ok(DispatchAnswer::Ray(table)),
            Err(unfit) => self.unpriced(&unfit),
        }
    }

    // The cheapest schedule and its prices, where none is left.
    fn cheapest(&self, alloc: Global) -> Result<DispatchAnswer, NoMemory>
        requires lawful { IsLawfulInstance self.now.instance.now }
        requires allowed { AreAllowed self.now.instance.now self.now.patterns.now }
        requires ended { IsEnded self.now }
        requires none { leaves_sum self.now ≡ false }
        ensures { IfOk result (IsAnswer self.now.instance.now self.now.patterns.now) }
    {
        match self.scale() {
            Ok(k) => self.priced(alloc, k),
            Err(wide) => Ok(DispatchAnswer::too_large(&wide, self.pivots)),
        }
    }

    // The same, at the scale of the prices. A price that is too large is told before a scale that is.
    fn priced(&self, alloc: Global, k: i128) -> Result<DispatchAnswer, NoMemory>
        requires lawful { IsLawfulInstance self.now.instance.now }
        requires allowed { AreAllowed self.now.instance.now self.now.patterns.now }
        requires ended { IsEnded self.now }
        requires none { leaves_sum self.now ≡ false }
        requires scale { (task : Task) → IsEndedBy self.now task → k ≡ scale_of task (cost_row task self.now.last.now.table) }
        requires narrow { (task : Task) → IsEndedBy self.now task → IsNarrow (TableScaleForms task self.now.last.now.table) }
        ensures { IfOk result (IsAnswer self.now.instance.now self.now.patterns.now) }
    {
        let cost = self.last.limits.len() + 1;
        match self.end().prices(alloc, self.instance, cost, within(k)) {
            Ok(table) => self.scaled(alloc, table, k),
            Err(unfit) => self.unpriced(&unfit),
        }
    }

    // The same, with the prices, whose scale is within its limit where that of the row is.
    fn scaled(&self, alloc: Global, table: Table, k: i128) -> Result<DispatchAnswer, NoMemory>
        requires lawful { IsLawfulInstance self.now.instance.now }
        requires allowed { AreAllowed self.now.instance.now self.now.patterns.now }
        requires ended { IsEnded self.now }
        requires none { leaves_sum self.now ≡ false }
        requires scale { (task : Task) → IsEndedBy self.now task → k ≡ scale_of task (cost_row task self.now.last.now.table) }
        requires table { k ≤ℤ pos 1000000000 → (task : Task) → IsEndedBy self.now task → IsPricedBy task self.now.last.now.table table }
        ensures { IfOk result (IsAnswer self.now.instance.now self.now.patterns.now) }
    {
        if k <= MAX_SCALE {
            self.shown(alloc, table)
        } else {
            Ok(DispatchAnswer::met(WideCause::Scale, k, self.pivots))
        }
    }

    // The same, with the prices.
    fn shown(&self, alloc: Global, table: Table) -> Result<DispatchAnswer, NoMemory>
        requires lawful { IsLawfulInstance self.now.instance.now }
        requires allowed { AreAllowed self.now.instance.now self.now.patterns.now }
        requires ended { IsEnded self.now }
        requires none { leaves_sum self.now ≡ false }
        requires table { (task : Task) → IsEndedBy self.now task → IsPricedBy task self.now.last.now.table table }
        ensures { IfOk result (IsAnswer self.now.instance.now self.now.patterns.now) }
    {
        let last = self.last;
        match schedule(
            alloc,
            self.instance,
            self.patterns,
            &last.table,
            &last.amounts,
        )? {
            Shown::Schedule(schedule) => Ok(DispatchAnswer::Best { schedule, table }),
            Shown::Fine(size) => Ok(DispatchAnswer::met(WideCause::Denominator, size, self.pivots)),
            Shown::Wide(wide) => Ok(DispatchAnswer::too_large(&wide, self.pivots)),
        }
    }

    // The table with what its columns and rows stand for.
    fn end(&self) -> FinalTableau<'_>
        ensures table { result.table.now ≡ self.now.last.now.table }
        ensures unknowns { result.unknowns ≡ length self.now.last.now.amounts.items }
        ensures limits { result.limits.now ≡ self.now.last.now.limits.items }
        ensures rights { result.rights.now ≡ self.now.last.now.rights.items }
    {
        let last = self.last;
        FinalTableau {
            table: &last.table,
            unknowns: last.amounts.len(),
            limits: &last.limits,
            rights: &last.rights,
        }
    }

    // The scale of the prices: that of the costs as often as the cost stands in the last row.
    fn scale(&self) -> Result<i128, Wide>
        requires ended { IsEnded self.now }
        ensures value { IfOk result (λ k. (task : Task) → IsEndedBy self.now task → k ≡ scale_of task (cost_row task self.now.last.now.table)) }
        ensures narrow { OnOk result ((task : Task) → IsEndedBy self.now task → IsNarrow (TableScaleForms task self.now.last.now.table)) }
        ensures wide { IfErr result (λ wide. (task : Task) → IsEndedBy self.now task → TableScaleForms task self.now.last.now.table wide.size wide.other × IsWide wide.size wide.other) }
    {
        let last = self.last;
        let times = last
            .table
            .number(last.limits.len() + 1, last.table.columns() - 2);
        product(times, &last.scale)
    }

    // The answer where a row gives no prices.
    fn unpriced(&self, unfit: &Unfit) -> Result<DispatchAnswer, NoMemory>
        ensures { IfOk result (Tells unfit.now self.now.pivots) }
    {
        match *unfit {
            Unfit::Product(wide) => Ok(DispatchAnswer::too_large(&wide, self.pivots)),
            Unfit::Multiplier(size) => Ok(DispatchAnswer::met(
                WideCause::Multiplier,
                size,
                self.pivots,
            )),
            Unfit::NoMemory => Err(NoMemory),
        }
    }
}

// A scale, or the greatest one.
fn within(k: i128) -> i64
    requires { pos 0 ≤ℤ k }
    ensures same { k ≤ℤ pos 1000000000 → result ≡ k }
    ensures low { pos 0 ≤ℤ result }
{
    if k <= MAX_SCALE {
        k as i64
    } else {
        MAX_SCALE as i64
    }
}
