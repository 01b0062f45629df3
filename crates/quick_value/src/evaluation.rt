//! What an evaluation finds, and how units add to it.

use crate::amounts::{number_at, times};
use crate::caps::Caps;
use crate::outputs::Output;
use crate::unit::Unit;
use std::alloc::Global;
use uc_model::{Instance, NoMemory, Renewable, WHOLE_SHARE};

/// The value, at the scale `SCALE`; the watts that lack of what each price of the list is of, which is the slope of the value in it; and
/// how often each unit is on in each period, unit by unit, in parts of `WHOLE_SHARE`.
#[derive(Debug, Drop)]
pub struct Evaluation {
    pub value: i128,
    pub lacks: Vec<i64>,
    pub shares: Vec<i64>,
}

/// The least and the most that all renewable units give in a period.
#[derive(Clone, Copy)]
pub(crate) struct Range {
    pub least: i64,
    pub most: i64,
}

const NO_RANGE: Range = Range { least: 0, most: 0 };

/// The ranges of all periods. The only error is `NoMemory`.
pub(crate) fn renewable_ranges(alloc: Global, instance: &Instance) -> Result<Vec<Range>, NoMemory> {
    let mut ranges = vec![in alloc; NO_RANGE; instance.periods as usize]?;
    for unit in instance.renewable.as_slice() {
        add_range(unit, &mut ranges);
    }
    Ok(ranges)
}

fn add_range(unit: &Renewable, ranges: &mut [Range]) {
    for t in 0..ranges.len() {
        let least = number_at(unit.minimum.as_slice(), t).max(0);
        ranges[t].least = ranges[t].least.saturating_add(least);
        let most = number_at(unit.maximum.as_slice(), t);
        ranges[t].most = ranges[t].most.saturating_add(most);
    }
}

// Takes what renewable units give from what lacks of demand.
fn take_renewables(lacks: &mut [i64], renewables: &[Range], prices: &[i64]) {
    for t in 0..lacks.len().min(renewables.len()).min(prices.len()) {
        let Range { least, most } = renewables[t];
        lacks[t] = lacks[t].saturating_sub(if prices[t] > 0 { most } else { least });
    }
}

// What lacks, at its prices.
fn value_of(lacks: &[i64], prices: &[i64]) -> i128 {
    let mut value: i128 = 0;
    for i in 0..lacks.len().min(prices.len()) {
        value = value.saturating_add(times(lacks[i], prices[i]));
    }
    value
}

// Takes what a unit gives from what lacks of demand, and then of reserve.
fn take_outputs(lacks: &mut [i64], minimum: i64, outputs: &[Output]) {
    for t in 0..lacks.len().min(outputs.len()) {
        if outputs[t].on {
            let given = minimum.saturating_add(outputs[t].power);
            lacks[t] = lacks[t].saturating_sub(given);
        }
        let place = t.saturating_add(outputs.len());
        if place < lacks.len() {
            lacks[place] = lacks[place].saturating_sub(outputs[t].reserve);
        }
    }
}

impl Evaluation {
    /// Memory for an evaluation, of which none is taken yet.
    pub fn empty(alloc: Global) -> Evaluation {
        Evaluation {
            value: 0,
            lacks: Vec::new(alloc),
            shares: Vec::new(alloc),
        }
    }

    /// Makes it what demand, reserve and renewable units lack by themselves, and their value, with room for so many prices. The only error
    /// is `NoMemory`.
    pub(crate) fn begin(
        &mut self,
        instance: &Instance,
        renewables: &[Range],
        caps: Caps,
        prices: &[i64],
    ) -> Result<(), NoMemory> {
        self.lacks.clear();
        self.lacks.reserve(prices.len())?;
        self.lacks.extend_from_slice(instance.demand.as_slice())?;
        take_renewables(&mut self.lacks, renewables, prices);
        self.lacks.extend_from_slice(instance.reserves.as_slice())?;
        self.value = value_of(&self.lacks, prices);
        if caps.are_any() {
            let missing = caps.take_missing(instance, prices, &mut self.lacks);
            self.value = self.value.saturating_add(missing);
        }
        let units = instance.thermal.as_slice().len();
        self.shares.clear();
        self.shares
            .reserve(units.saturating_mul(instance.periods as usize))?;
        Ok(())
    }

    /// Adds a unit that gives so much.
    pub(crate) fn add(&mut self, unit: &Unit, outputs: &[Output]) -> Result<(), NoMemory> {
        for output in outputs {
            self.shares.push(if output.on { WHOLE_SHARE } else { 0 })?;
        }
        take_outputs(&mut self.lacks, unit.minimum, outputs);
        Ok(())
    }

    /// Adds the prices of the ramps of a unit that gives so much, which begin at `first` in the list, and by how much it goes past them.
    pub(crate) fn add_ramps(
        &mut self,
        unit: &Unit,
        outputs: &[Output],
        prices: &[i64],
        first: usize,
    ) -> Result<(), NoMemory> {
        let second = first.saturating_add(outputs.len());
        let mut before = unit.before;
        for output in outputs {
            let (risen, _) = output.moves(before);
            self.lacks.push(risen.saturating_sub(unit.rise))?;
            before = output.power;
        }
        before = unit.before;
        for output in outputs {
            let (_, fallen) = output.moves(before);
            self.lacks.push(fallen.saturating_sub(unit.fall))?;
            before = output.power;
        }
        let initial = number_at(prices, second).saturating_sub(number_at(prices, first));
        let limits = sum_of(prices, first, outputs.len(), unit.rise).saturating_add(sum_of(
            prices,
            second,
            outputs.len(),
            unit.fall,
        ));
        self.value = self
            .value
            .saturating_add(times(initial, unit.before))
            .saturating_sub(limits);
        Ok(())
    }
}

// So many watts at each of so many prices of the list from `first` on.
fn sum_of(prices: &[i64], first: usize, count: usize, watts: i64) -> i128 {
    let mut sum: i128 = 0;
    for i in first..first.saturating_add(count).min(prices.len()) {
        if prices[i] != 0 {
            sum = sum.saturating_add(times(prices[i], watts));
        }
    }
    sum
}
