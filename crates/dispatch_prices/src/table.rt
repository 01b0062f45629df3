//! The table of prices at the end of a run.
ghost use Rattle.std.specs.Prelude.{◌≡◌, ℕ, [], ◌∷◌, ◌++◌, ◌+◌, ◌<◌, ◌≤◌, length, pos, unsigned_abs, IfErr, IfOk, OnOk, slice_index_or, ◌≤ℤ◌};
ghost use Rattle.uc_model.specs.Prelude.{IsLawfulInstance};
ghost use Rattle.pivot_run.specs.Prelude.{IsNarrow, row_at};
ghost use Rattle.dispatch_rules.specs.Prelude.{limit_of, rule_of, Task, is_same, limit, program};
ghost use Rattle.dispatch_prices.specs.ReadOff.{HasSmallMultipliers, ReadingForms, all_rows, kept, ramp_row as cell_row};
ghost use Rattle.dispatch_prices.specs.Readings.{IsEndAt, IsPriceTable, IsUnfit};
ghost use Rattle.dispatch_prices.specs.PricedLimits.{ArePrices, IsLawfulPriced, IsTableOf, demand_price, down_price, price_of, reserve_price, up_price};

use crate::multipliers::FinalTableau;
use crate::unfit::Unfit;
use dispatch_rules::{LimitAt, LimitRule};
use dual_model::{RampRow, Table};
use std::alloc::Global;
use uc_model::{Instance, NoMemory};

impl FinalTableau<'_> {
    /// The table of the prices that row `o` gives, at the scale `k`: the multipliers of demand, of the reserve and of the ramps.
    pub fn prices(
        &self,
        alloc: Global,
        instance: &Instance,
        o: usize,
        k: i64,
    ) -> Result<Table, Unfit>
        requires lawful { IsLawfulInstance instance.now }
        requires end { (task : Task) × ((task.instance ≡ instance.now) × IsEndAt task self.now) }
        requires row { o < length self.now.table.now.rows }
        requires scale { pos 0 ≤ℤ k }
        ensures table { IfOk result (λ table. (task : Task) → task.instance ≡ instance.now → IsEndAt task self.now → IsPriceTable task (row_at self.now.table.now.rows o) k table) }
        ensures narrow { OnOk result ((task : Task) → IsEndAt task self.now → IsNarrow (ReadingForms (program task) (row_at self.now.table.now.rows o))) }
        ensures within { OnOk result ((task : Task) → IsEndAt task self.now → HasSmallMultipliers (program task) self.now.limits.now (row_at self.now.table.now.rows o)) }
        ensures unfit { IfErr result (λ unfit. (task : Task) → IsEndAt task self.now → IsUnfit (program task) self.now.limits.now (row_at self.now.table.now.rows o) unfit) }
    {
        let times = match self.multipliers(alloc, o) {
            Ok(times) => times,
            Err(unfit) => return Err(unfit),
        };
        let priced = Priced {
            limits: self.limits,
            times: &times,
        };
        let units = instance.thermal.as_slice().len() as u32;
        match table_of(alloc, units, instance.periods, k, &priced) {
            Ok(table) => Ok(table),
            Err(NoMemory) => Err(Unfit::NoMemory),
        }
    }
}

// The priced limits, each with its multiplier.
#[derive(Clone, Copy)]
pub(crate) struct Priced<'a> {
    pub limits: &'a [LimitAt],
    pub times: &'a [i64],
}

impl Priced<'_> {
    // How often the limit of this rule at a unit and a period stands in the row; 0 where there is no such limit.
    fn times(&self, rule: LimitRule, unit: u32, period: u32) -> i64
        requires { IsLawfulPriced self.now }
        ensures size { unsigned_abs result ≤ 100000000000000 }
        ensures value { result ≡ price_of self.now rule unit period }
    {
        for i in 0..self.limits.len() {
            if is_at(&self.limits[i], rule, unit, period) {
                return self.times[i];
            }
        }
        0
    }
}

// The table of the prices, of so many units and periods, at the scale `k`.
pub(crate) fn table_of(
    alloc: Global,
    units: u32,
    periods: u32,
    k: i64,
    priced: &Priced,
) -> Result<Table, NoMemory>
    requires priced { IsLawfulPriced priced.now }
    requires scale { pos 0 ≤ℤ k }
    ensures { IfOk result (IsTableOf priced.now units periods k) }
{
    let pi = demand_prices(alloc, periods, priced)?;
    let mu = reserve_prices(alloc, periods, priced)?;
    let ramps = ramp_rows(alloc, units, periods, priced)?;
    Table::new(alloc, units, k, &pi, &mu, &ramps)
}

// The prices of demand.
fn demand_prices(alloc: Global, periods: u32, priced: &Priced) -> Result<Vec<i64>, NoMemory>
    requires { IsLawfulPriced priced.now }
    ensures { IfOk result (λ prices. ArePrices (demand_price priced.now) periods prices.items) }
{
    let mut prices = Vec::new(alloc);
    for t in 0..periods {
        push(&mut prices, -priced.times(LimitRule::Demand, 0, t))?;
    }
    Ok(prices)
}

// The prices of reserve.
fn reserve_prices(alloc: Global, periods: u32, priced: &Priced) -> Result<Vec<i64>, NoMemory>
    requires { IsLawfulPriced priced.now }
    ensures { IfOk result (λ prices. ArePrices (reserve_price priced.now) periods prices.items) }
{
    let mut prices = Vec::new(alloc);
    for t in 0..periods {
        push(&mut prices, priced.times(LimitRule::Reserve, 0, t))?;
    }
    Ok(prices)
}

// Adds a price.
fn push(prices: &mut Vec<i64>, price: i64) -> Result<(), NoMemory>
    ensures { OnOk result (prices.new.items ≡ prices.old.items ++ price ∷ []) }
{
    prices.push(price)?;
    Ok(())
}

// The rows of the ramps' prices that aren't all 0, by unit and then by period.
fn ramp_rows(
    alloc: Global,
    units: u32,
    periods: u32,
    priced: &Priced,
) -> Result<Vec<RampRow>, NoMemory>
    requires { IsLawfulPriced priced.now }
    ensures { IfOk result (λ rows. rows.items ≡ all_rows (up_price priced.now) (down_price priced.now) units periods) }
{
    let mut rows = Vec::new(alloc);
    for g in 0..units {
        for t in 0..periods {
            keep(&mut rows, ramp_row(priced, g, t))?;
        }
    }
    Ok(rows)
}

fn ramp_row(priced: &Priced, g: u32, t: u32) -> RampRow
    requires { IsLawfulPriced priced.now }
    ensures { result ≡ cell_row (up_price priced.now) (down_price priced.now) g t }
{
    RampRow {
        g,
        t,
        up: priced.times(LimitRule::RampUp, g, t),
        down: priced.times(LimitRule::RampDown, g, t),
    }
}

// Adds a row, unless it is all 0.
fn keep(rows: &mut Vec<RampRow>, row: RampRow) -> Result<(), NoMemory>
    ensures { OnOk result (rows.new.items ≡ rows.old.items ++ kept row) }
{
    if row.up != 0 || row.down != 0 {
        rows.push(row)?;
    }
    Ok(())
}

// Whether a limit is that of the rule at the unit and the period.
fn is_at(at_limit: &LimitAt, rule: LimitRule, unit: u32, period: u32) -> bool
    ensures { result ≡ is_same (limit_of at_limit.now) (limit (rule_of rule) unit period 0) }
{
    at_limit.rule == rule
        && at_limit.unit == unit
        && at_limit.period == period
        && at_limit.segment == 0
}
