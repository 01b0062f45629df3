//! The units of an instance, and their state while a schedule is sought.

use crate::cells::{Cells, Known, SAME, UNKNOWN, WAYS};
use crate::course::Course;
use crate::heads::{raise, set_spares};
use crate::lists::{at, push_rows, put, stretch};
use crate::merit::Market;
use crate::period::{NOTHING, Period};
use crate::supply::Fill;
use crate::swaps::{Committed, Swaps};
use crate::trajectory::Trajectory;
use crate::unit::Unit;
use crate::window::{IDLE, Window, keep_ramps, narrow_to, open};
use std::alloc::Global;
use uc_model::{Instance, NoMemory, Pattern};

/// A unit, and the place of its first segment in the order of merit.
#[derive(Clone, Copy)]
pub(crate) struct Placed {
    pub place: usize,
    pub unit: usize,
}

/// The units, the order of merit of their segments, the units from the one whose first segment is last in it on, and whether a unit's ramps
/// can bind.
#[derive(Drop)]
pub struct Plant {
    pub units: Vec<Unit>,
    pub market: Market,
    dearest_first: Vec<Placed>,
    pub is_ramped: bool,
}

/// The periods; each unit's pattern, its windows, and what is known of its cells; and memory for one unit's cells, windows and pattern,
/// for how far periods are filled, for how much of a unit's head each can do without, and for swaps.
#[derive(Drop)]
pub struct RepairState {
    pub periods: Vec<Period>,
    pub patterns: Vec<Pattern>,
    pub rows: Vec<Vec<Window>>,
    pub cells: Vec<Cells>,
    pub known: Vec<Vec<Known>>,
    pub trial: TriedUnit,
    pub course: Course,
    pub(crate) fills: Vec<Fill>,
    spares: Vec<i64>,
    swaps: Swaps,
}

/// The windows of a unit that is tried, and memory for its trajectory.
#[derive(Drop)]
pub struct TriedUnit {
    pub row: Vec<Window>,
    pub trajectory: Trajectory,
}

impl Plant {
    /// No units.
    pub fn new(alloc: Global) -> Plant {
        Plant {
            units: Vec::new(alloc),
            market: Market::new(alloc),
            dearest_first: Vec::new(alloc),
            is_ramped: false,
        }
    }

    /// Orders the units of the instance that were put in. The only error is `NoMemory`.
    pub fn order(&mut self, alloc: Global, instance: &Instance) -> Result<(), NoMemory> {
        self.is_ramped = can_any_bind(&self.units);
        self.market
            .fill(alloc, instance, &mut self.units)
            .and(push_dearest(&self.units, &mut self.dearest_first))
    }

    /// Whether the ramps of unit g can bind.
    pub fn is_ramped_at(&self, g: usize) -> bool {
        g < self.units.len() && self.units[g].is_ramped
    }
}

// Adds the units from the one whose first segment is last in the order of merit on.
fn push_dearest(units: &[Unit], order: &mut Vec<Placed>) -> Result<(), NoMemory> {
    for g in 0..units.len() {
        let place = units[g].first_place();
        put(order, Placed { place, unit: g })?;
    }
    order.sort_by_key(|own| usize::MAX.saturating_sub(own.place))?;
    Ok(())
}

// Whether the ramps of one of the units can bind.
fn can_any_bind(units: &[Unit]) -> bool {
    let mut can_bind = false;
    for unit in units {
        can_bind = can_bind || unit.is_ramped;
    }
    can_bind
}

impl RepairState {
    /// A state of no units and periods.
    pub fn new(alloc: Global) -> RepairState {
        RepairState {
            periods: Vec::new(alloc),
            patterns: Vec::new(alloc),
            rows: Vec::new(alloc),
            cells: Vec::new(alloc),
            known: Vec::new(alloc),
            trial: TriedUnit {
                row: Vec::new(alloc),
                trajectory: Trajectory::new(alloc),
            },
            course: Course::new(alloc),
            fills: Vec::new(alloc),
            spares: Vec::new(alloc),
            swaps: Swaps::new(alloc),
        }
    }

    /// Makes it that of the plant in which each unit is off. The only error is `NoMemory`.
    pub fn fill(
        &mut self,
        alloc: Global,
        instance: &Instance,
        plant: &Plant,
    ) -> Result<(), NoMemory> {
        let count = instance.periods as usize;
        let units = plant.units.len();
        let ways = count.saturating_mul(WAYS);
        push_periods(alloc, instance, &plant.market, &mut self.periods)
            .and(stretch(&mut self.patterns, units, Pattern::all_off()))
            .and(push_rows(alloc, IDLE, units, count, &mut self.rows))
            .and(push_rows(alloc, UNKNOWN, units, ways, &mut self.known))
            .and(stretch(&mut self.cells, count, SAME))
            .and(stretch(&mut self.trial.row, count, IDLE))
            .and(self.course.stretch(count))
            .and(stretch(&mut self.fills, count, UNFILLED))
            .and(stretch(&mut self.spares, count, 0))
            .and(self.swaps.fill(alloc, plant, count))
    }

    /// Puts all units on their patterns, at the outputs in order of merit, moved until they keep the ramps.
    pub fn load(&mut self, plant: &Plant, count: u32) {
        open_all(&plant.units, &self.patterns, count, &mut self.rows);
        add_all(plant, &mut self.periods, &self.rows);
        self.recenter(plant, count);
    }

    /// Centres the windows on the outputs in order of merit inside them.
    pub fn recenter(&mut self, plant: &Plant, count: u32) {
        self.center_all(plant, count, Outputs::Kept);
    }

    /// Lets the dearest units give less where they give it for the reserve of the next period alone, and that can do without. The units
    /// give first what lets tight periods have all heads.
    pub fn refine(&mut self, plant: &Plant, count: u32) {
        self.center_all(plant, count, Outputs::Raised);
        self.center_all(plant, count, Outputs::Kept);
        for _ in 0..LOWERINGS {
            self.center_all(plant, count, Outputs::Lowered);
        }
        self.center_all(plant, count, Outputs::Kept);
    }

    /// Moves the centres of the windows by swaps of two units, as far as those gain, whatever the windows leave. The only error is `NoMemory`.
    pub fn swap(&mut self, plant: &Plant, count: u32) -> Result<(), NoMemory> {
        let committed = Committed {
            units: &plant.units,
            patterns: &self.patterns,
            count,
        };
        self.swaps.make(&committed, &self.periods, &mut self.rows)
    }

    // Centres the windows of all units on these outputs, the dearest first.
    fn center_all(&mut self, plant: &Plant, count: u32, outputs: Outputs) {
        fill_periods(&plant.market, &mut self.periods, &mut self.fills);
        for placed in plant.dearest_first.as_slice() {
            self.center_unit(plant, placed.unit, count, outputs);
        }
    }

    // Centres the windows of unit g on these outputs.
    fn center_unit(&mut self, plant: &Plant, g: usize, count: u32, outputs: Outputs) {
        if g >= plant.units.len() || g >= self.patterns.len() || g >= self.rows.len() {
            return;
        }
        let (market, unit) = (&plant.market, &plant.units[g]);
        let (own, row) = (self.trial.row.as_mut_slice(), self.rows[g].as_mut_slice());
        copy_row(row, own);
        center(unit, own, &self.fills);
        open(unit, &self.patterns[g], count, own);
        if unit.is_ramped {
            self.spares.fill(0);
            match outputs {
                Outputs::Kept => {}
                Outputs::Raised => raise(unit, &self.periods, own),
                Outputs::Lowered => set_spares(market, &self.periods, row, own, &mut self.spares),
            }
            keep_ramps(unit, own);
            narrow_to(unit, &self.periods, &self.spares, own);
        }
        exchange(market, &mut self.periods, unit, row, own);
    }
}

/// How often outputs are lowered, each time as far as the windows of the time before let them.
const LOWERINGS: u32 = 4;

// The outputs that windows are centred on: those in order of merit, as they are, raised for the reserve of the next period, or lowered
// where it can do without.
#[derive(Clone, Copy)]
enum Outputs {
    Kept,
    Raised,
    Lowered,
}

// Opens the windows of all units.
fn open_all(units: &[Unit], patterns: &[Pattern], count: u32, rows: &mut [Vec<Window>]) {
    for g in 0..units.len().min(patterns.len()).min(rows.len()) {
        open(&units[g], &patterns[g], count, &mut rows[g]);
    }
}

// Fills each period in the order of merit, and marks it where hardly any reserve is left.
fn fill_periods(market: &Market, periods: &mut [Period], fills: &mut [Fill]) {
    for t in 0..periods.len().min(fills.len()) {
        let period = &mut periods[t];
        fills[t] = period.fill(market, period.given_with(market, &NOTHING));
        period.is_tight = period.is_tight || period.is_short_soon(market);
    }
}

const UNFILLED: Fill = Fill {
    place: 0,
    left: 0,
    cost: 0,
};

// Adds the periods of the instance, without units.
fn push_periods(
    alloc: Global,
    instance: &Instance,
    market: &Market,
    periods: &mut Vec<Period>,
) -> Result<(), NoMemory> {
    for t in 0..instance.periods as usize {
        let mut period = Period::new(alloc, market.rates.len())?;
        period.reserve_rate = market.missing;
        set_wanted(instance, t, &mut period);
        periods.push(period)?;
    }
    Ok(())
}

// Sets what is wanted in period t of the instance.
fn set_wanted(instance: &Instance, t: usize, period: &mut Period) {
    period.needed = at(instance.demand.as_slice(), t);
    period.bearable = period.needed;
    for unit in instance.renewable.as_slice() {
        let most = at(unit.maximum.as_slice(), t);
        let least = at(unit.minimum.as_slice(), t).max(0);
        period.needed = period.needed.saturating_sub(most);
        period.bearable = period.bearable.saturating_sub(least);
    }
    period.reserve = at(instance.reserves.as_slice(), t).max(0);
}

/// What all periods cost, starts left out.
pub fn total(market: &Market, periods: &mut [Period]) -> i64 {
    let mut total: i64 = 0;
    for period in periods.iter_mut() {
        total = total.saturating_add(period.cost(market));
    }
    total
}

/// Adds a unit in its windows to all periods, or takes it away where the sign is -1.
pub fn shift(market: &Market, periods: &mut [Period], unit: &Unit, row: &[Window], sign: i64) {
    for t in 0..periods.len().min(row.len()) {
        periods[t].shift(market, unit, &row[t], sign);
    }
}

/// Moves a unit from its windows to others, in the periods too.
pub fn exchange(
    market: &Market,
    periods: &mut [Period],
    unit: &Unit,
    row: &mut [Window],
    to: &[Window],
) {
    for t in 0..periods.len().min(row.len()).min(to.len()) {
        move_unit(market, &mut periods[t], unit, &row[t], &to[t]);
        row[t] = to[t];
    }
}

// Moves a unit in a period from its window to another.
fn move_unit(market: &Market, period: &mut Period, unit: &Unit, own: &Window, to: &Window) {
    if !is_alike(own, to) {
        period.shift(market, unit, own, -1);
        period.shift(market, unit, to, 1);
    }
}

// Whether what two windows leave is the same.
fn is_alike(first: &Window, second: &Window) -> bool {
    first.on == second.on
        && first.low == second.low
        && first.high == second.high
        && first.head == second.head
}

/// Copies windows.
pub fn copy_row(from: &[Window], to: &mut [Window]) {
    let count = from.len().min(to.len());
    to[..count].copy_from_slice(&from[..count]);
}

/// Puts all units into the periods anew, of which none is marked as tight.
pub(crate) fn add_all(plant: &Plant, periods: &mut [Period], rows: &[Vec<Window>]) {
    for period in periods.iter_mut() {
        period.clear();
    }
    for (g, unit) in plant.units.iter().enumerate() {
        if g < rows.len() {
            shift(&plant.market, periods, unit, &rows[g], 1);
        }
    }
}

// Centres a unit's windows on what it gives where periods are filled so far.
fn center(unit: &Unit, row: &mut [Window], fills: &[Fill]) {
    for t in 0..row.len().min(fills.len()) {
        if row[t].on {
            row[t].power = filled(unit, &row[t], &fills[t]);
        }
    }
}

// What a unit gives inside its window.
fn filled(unit: &Unit, window: &Window, fill: &Fill) -> i64 {
    let mut power = window.low;
    let mut from: i64 = 0;
    for segment in &unit.segments {
        let to = from.saturating_add(segment.watts);
        let part = part_between(window, from, to);
        power = power.saturating_add(filled_at(fill, segment.place, part));
        from = to;
    }
    power
}

// The watts of a window between two outputs.
fn part_between(window: &Window, from: i64, to: i64) -> i64 {
    let low = window.low.max(from);
    window.high.min(to).saturating_sub(low).max(0)
}

// How many of so many watts at a place are filled.
fn filled_at(fill: &Fill, place: usize, watts: i64) -> i64 {
    if place < fill.place {
        watts
    } else if place == fill.place {
        watts.min(fill.left)
    } else {
        0
    }
}
