//! The evaluator of an instance.

ghost use Rattle.uc_model.specs.Prelude.{IsLawfulInstance};

use crate::amounts::PART;
use crate::caps::Caps;
use crate::cells::fill;
use crate::decisions::{Choice, Decisions};
use crate::evaluation::{Evaluation, Range, renewable_ranges};
use crate::outputs::{NOTHING, Output, fill_outputs};
use crate::prices::{FREE, Price, fill_common, fill_ramped, has_ramp_price};
use crate::ramped_walk::{RampedWalk, Task};
use crate::twins::{Twins, copy_outputs};
use crate::unit::{Unit, unit_at};
use crate::walk::Walk;
use std::alloc::Global;
use uc_model::{Instance, NoMemory};

/// The units of an instance, the ranges of its renewable ones, what its prices rise to at most, and memory for one unit's prices and walk.
///
/// A list of prices has, at the scale `SCALE`, in each period that of demand, in each that of reserve, and for each unit whose ramps can
/// bind those of its ramp up and then of its ramp down in each period.
#[derive(Drop)]
pub struct QuickEvaluator {
    units: Vec<Unit>,
    renewables: Vec<Range>,
    pub caps: Caps,
    common: Vec<Price>,
    own: Vec<Price>,
    walk: Walk,
    ramps: Option<Ramps>,
    outputs: Vec<Output>,
}

// Memory for walks that keep ramps, and the units of the same data.
#[derive(Drop)]
struct Ramps {
    walk: RampedWalk,
    twins: Twins,
}

impl QuickEvaluator {
    /// The evaluator of an instance. The only error is `NoMemory`.
    pub fn new(alloc: Global, instance: &Instance) -> Result<QuickEvaluator, NoMemory>
        requires { IsLawfulInstance instance.now }
    {
        let periods = instance.periods as usize;
        let mut units = Vec::new(alloc);
        for g in 0..instance.thermal.as_slice().len() {
            if let Some(unit) = unit_at(instance, g) {
                units.push(Unit::of(alloc, unit, instance.periods)?)?;
            }
        }
        Ok(QuickEvaluator {
            units,
            renewables: renewable_ranges(alloc, instance)?,
            caps: Caps::of(instance),
            common: vec![in alloc; FREE; periods]?,
            own: vec![in alloc; FREE; periods]?,
            walk: Walk::new(alloc, periods)?,
            ramps: None,
            outputs: vec![in alloc; NOTHING; periods]?,
        })
    }

    /// The evaluator of an instance in which nothing costs anything: its values are those at the scale 0. The only error is `NoMemory`.
    pub fn without_costs(alloc: Global, instance: &Instance) -> Result<QuickEvaluator, NoMemory>
        requires { IsLawfulInstance instance.now }
    {
        let mut evaluator = QuickEvaluator::new(alloc, instance)?;
        evaluator.caps = Caps::without_costs(instance);
        for unit in evaluator.units.iter_mut() {
            unit.forget_costs();
        }
        Ok(evaluator)
    }

    /// Makes it one of exact values. The only error is `NoMemory`.
    pub fn keep_ramps(&mut self, alloc: Global, instance: &Instance) -> Result<(), NoMemory> {
        self.ramps = Some(Ramps {
            walk: RampedWalk::new(alloc, instance.periods as usize)?,
            twins: Twins::of(alloc, instance)?,
        });
        Ok(())
    }

    /// The units, from 0, whose ramps can bind. The only error is `NoMemory`.
    pub fn ramped(&self, alloc: Global) -> Result<Vec<u32>, NoMemory> {
        let mut ramped = Vec::new(alloc);
        if self.ramps.is_some() {
            return Ok(ramped);
        }
        let mut g: u32 = 0;
        for unit in &self.units {
            if unit.is_ramped {
                ramped.push(g)?;
            }
            g = g.saturating_add(1);
        }
        Ok(ramped)
    }

    /// What the node with these decisions is worth at the prices, in the memory of another evaluation, and none where a unit has no pattern.
    /// The only error is `NoMemory`.
    pub fn evaluate(
        &mut self,
        instance: &Instance,
        decisions: &Decisions,
        prices: &[i64],
        memory: Evaluation,
    ) -> Result<Option<Evaluation>, NoMemory> {
        let mut found = memory;
        found.begin(instance, &self.renewables, self.caps, prices)?;
        fill_common(&mut self.common, prices);
        if let Some(ramps) = &mut self.ramps {
            ramps.twins.forget();
        }
        let mut first = self.common.len().saturating_mul(2);
        let mut sum: i128 = 0;
        let units = self.units.as_slice();
        for g in 0..units.len().min(decisions.rows.len()) {
            let unit = &units[g];
            let own = priced(&self.common, &mut self.own, unit, prices, first);
            let choices = decisions.rows[g].as_slice();
            let outputs = self.outputs.as_mut_slice();
            let amount = match &mut self.ramps {
                None => walked(&mut self.walk, unit, own, choices, outputs),
                Some(ramps) => ramps.walked(&mut self.walk, unit, own, decisions, g, outputs)?,
            };
            let Some(amount) = amount else {
                return Ok(None);
            };
            sum = sum.saturating_add(i128::from(amount));
            found.add(unit, &self.outputs)?;
            if unit.is_ramped && self.ramps.is_none() {
                found.add_ramps(unit, &self.outputs, prices, first)?;
                first = first.saturating_add(own.len().saturating_mul(2));
            }
        }
        found.value = found.value.saturating_add(sum.saturating_mul(PART));
        Ok(Some(found))
    }
}

// The prices of a unit, of whose ramps those begin at `first` in the list: the common ones where it has none.
fn priced<'a>(
    common: &'a [Price],
    own: &'a mut [Price],
    unit: &Unit,
    prices: &[i64],
    first: usize,
) -> &'a [Price] {
    if unit.is_ramped && has_ramp_price(prices, first, own.len()) {
        fill_ramped(own, prices, first);
        own
    } else {
        common
    }
}

// The least amount of a unit at its prices, as it may be, and fills what it gives.
fn walked(
    walk: &mut Walk,
    unit: &Unit,
    prices: &[Price],
    choices: &[Choice],
    outputs: &mut [Output],
) -> Option<i64> {
    fill(&mut walk.cells, unit, prices);
    let amount = walk.least(unit, choices)?;
    fill_outputs(outputs, unit, walk, prices);
    Some(amount)
}

impl Ramps {
    // The same where the unit keeps its ramps, of a unit like it that was walked already, if there is one. The only error is `NoMemory`.
    fn walked(
        &mut self,
        walk: &mut Walk,
        unit: &Unit,
        prices: &[Price],
        decisions: &Decisions,
        g: usize,
        outputs: &mut [Output],
    ) -> Result<Option<i64>, NoMemory> {
        if let Some(found) = self.twins.find(g, decisions) {
            copy_outputs(&found.outputs, outputs);
            return Ok(Some(found.amount));
        }
        let Some(choices) = decisions.rows.get(g) else {
            return Ok(None);
        };
        let Some(plain) = walked(walk, unit, prices, choices, outputs) else {
            return Ok(None);
        };
        let task = Task {
            unit,
            prices,
            cells: &walk.cells,
        };
        let amount = self.walk.keep(&task, choices, plain, outputs)?;
        if let Some(amount) = amount {
            self.twins.keep(g, amount, outputs);
        }
        Ok(amount)
    }
}
