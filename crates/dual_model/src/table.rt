//! Price tables: a multiplier for each coupling rule of the model.

ghost use Rattle.std.specs.Prelude.{◌≡◌, ℕ, ◌≤◌, length, IfOk};

use crate::places::places_of;
use std::alloc::Global;
use std::marker::Model;
use uc_model::{List, NoMemory};

/// The multipliers on the ramp rules of thermal unit `g` in period `t`, both counted from 0: `up` on M11 and
/// `down` on M12.
#[derive(Clone, Copy, Debug)]
pub struct RampRow {
    pub g: u32,
    pub t: u32,
    pub up: i64,
    pub down: i64,
}

/// Prices: the number n stands for n / `k` micro-dollars per watt, and `k` = 0 marks a ray. `pi` prices
/// demand (M14) and `mu` reserve (M15) in each period; `ramps` has the rows that are not all 0, by unit and
/// then by period, for a system of `units` thermal units. Beside them stands where each unit's rows begin.
///
/// Contracts see a table as the record of its numbers, which are well formed: each list of prices has one
/// spelling.
#[derive(Debug, Drop)]
pub struct Table {
    units: u32,
    k: i64,
    pi: List<i64>,
    mu: List<i64>,
    ramps: List<RampRow>,
    // For each unit up to the last that has a row: how many rows the units before it have.
    places: List<usize>,
}

impl Model for Table {
    ghost use Rattle.dual_model.specs.PriceTable.{PriceTable};

    ghost Value = { PriceTable };

    ghost use Rattle.dual_model.specs.Prices.{ArePlacesOf, IsWellFormed};

    ghost view = { λ t. record { units = t.units; k = t.k; pi = t.pi; mu = t.mu; ramps = t.ramps } };

    ghost invariant = { λ t. IsWellFormed (record { units = t.units; k = t.k; pi = t.pi; mu = t.mu; ramps = t.ramps })
        × ArePlacesOf t.places t.ramps };
}

impl Table {
    ghost use Rattle.dual_model.specs.Prices.{AreRising, IsWellFormed, row_of, rows_before, unit_rows as rows_of};

    /// The table of these numbers: `pi` and `mu` have a number for each period, and `ramps` a row for each
    /// cell whose ramp multipliers are not both 0, by unit and then by period. It answers `NoMemory` only
    /// where memory is refused.
    pub fn new(
        alloc: Global,
        units: u32,
        k: i64,
        pi: &[i64],
        mu: &[i64],
        ramps: &[RampRow],
    ) -> Result<Table, NoMemory>
        requires { IsWellFormed (record { units = units; k = k; pi = pi.now; mu = mu.now; ramps = ramps.now }) }
        ensures { IfOk result (λ table. table ≡ record { units = units; k = k; pi = pi.now; mu = mu.now; ramps = ramps.now }) }
    {
        Ok(Table {
            units,
            k,
            pi: copied(alloc, pi)?,
            mu: copied(alloc, mu)?,
            ramps: copied(alloc, ramps)?,
            places: places_of(alloc, ramps)?,
        })
    }

    /// The number of thermal units of the system.
    pub fn units(&self) -> u32
        ensures { result ≡ self.now.units }
    {
        self.units
    }

    /// The scale K, at least 0.
    pub fn k(&self) -> i64
        ensures { result ≡ self.now.k }
    {
        self.k
    }

    /// The price of demand in each period.
    pub fn pi(&self) -> &[i64]
        ensures { result.now ≡ self.now.pi }
    {
        self.pi.as_slice()
    }

    /// The price of reserve in each period.
    pub fn mu(&self) -> &[i64]
        ensures { result.now ≡ self.now.mu }
    {
        self.mu.as_slice()
    }

    /// The rows of ramp multipliers that are not all 0, by unit and then by period.
    pub fn ramps(&self) -> &[RampRow]
        ensures rows { result.now ≡ self.now.ramps }
        ensures form { IsWellFormed self.now }
    {
        self.ramps.as_slice()
    }

    /// The rows of unit `g`, from 0, by period: what lies between its place and the next unit's. A look-up among them is
    /// the look-up among all.
    pub fn unit_rows(&self, g: u32) -> &[RampRow]
        ensures rows { result.now ≡ rows_of self.now.ramps g }
        ensures look_up { (t : ℕ) → row_of result.now g t ≡ row_of self.now.ramps g t }
        ensures rising { AreRising result.now }
    {
        let start = self.place(g as usize);
        let end = self.place(g as usize + 1);
        &self.ramps.as_slice()[start..end]
    }

    // The number of rows of the units before unit `g`.
    fn place(&self, g: usize) -> usize
        ensures value { result ≡ rows_before self.now.ramps g }
        ensures within { result ≤ length self.now.ramps }
    {
        let places = self.places.as_slice();
        if g < places.len() {
            places[g]
        } else {
            self.ramps.as_slice().len()
        }
    }

    /// An equal table. It answers `NoMemory` only where memory is refused.
    pub fn copy(&self, alloc: Global) -> Result<Table, NoMemory>
        ensures { IfOk result (λ table. table ≡ self.now) }
    {
        Ok(Table {
            units: self.units,
            k: self.k,
            pi: copied(alloc, self.pi.as_slice())?,
            mu: copied(alloc, self.mu.as_slice())?,
            ramps: copied(alloc, self.ramps.as_slice())?,
            places: copied(alloc, self.places.as_slice())?,
        })
    }
}

/// A list of the same elements.
fn copied<T: Copy>(alloc: Global, items: &[T]) -> Result<List<T>, NoMemory>
    ensures { IfOk result (λ list. list ≡ items.now) }
{
    let mut copy = Vec::new(alloc);
    match copy.extend_from_slice(items) {
        Ok(()) => Ok(List::from_vec(copy)),
        Err(_) => Err(NoMemory),
    }
}
