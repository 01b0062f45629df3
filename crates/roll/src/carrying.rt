//! The states in which a schedule of the first periods leaves the thermal units.

ghost use Rattle.std.specs.Prelude.{◌≡◌, ◌-◌, ◌<◌, ◌≤◌, ◌+ℤ◌, if◌then◌else◌, IfOk, length};
ghost use Rattle.uc_model.specs.Prelude.{IsLawfulInstance, IsLawfulThermal, IsPower};
ghost use Rattle.uc_model.specs.declared.limits.TheConstants.{MAX_PERIODS, MAX_TIME};
ghost use Rattle.schedule_check.specs.WholeWatts.{cell, commitment};
ghost use Rattle.roll.specs.Kept.{ObeysFirst};
ghost use Rattle.roll.specs.Left.{HasLasted, HasStates, IsCarried, IsLawfulState, IsLeftBy, initial_state, is_too_high_to_stop, time_off_so_far, time_on_left, time_on_so_far, total_output};
ghost use Rattle.roll.specs.inside.Rows.{AreInitialStates, AreLawful, AreStatesBehind, HasRows, IsWithinRange};

use crate::state::{Carried, CarriedUnit};
use std::alloc::Global;
use uc_model::limits::MAX_TIME;
use uc_model::{Cell, Instance, List, NoMemory, Printed, Thermal};

/// The states in which the schedule `kept` of the periods before `a`, which counts from 1, leaves the thermal units. Where `a`
/// is 1 they are the instance's own, and no schedule is looked at. A unit whose last output and reserve are too high to stop
/// has been on for less than its minimum up time. The only error is `NoMemory`.
pub fn carry(
    alloc: Global,
    instance: &Instance,
    kept: &Printed,
    a: u32,
) -> Result<Carried, NoMemory>
    requires lawful { IsLawfulInstance instance.now }
    requires first { 1 ≤ a }
    requires last { a ≤ instance.now.periods }
    requires kept { 1 < a → ObeysFirst instance.now (a - 1) kept.now }
    ensures carried { IfOk result (IsCarried instance.now kept.now (a - 1)) }
    ensures states { IfOk result (HasStates instance.now) }
{
    let units = instance.thermal.as_slice();
    let end = a as usize - 1;
    let states = if end == 0 {
        initial_states(alloc, units)?
    } else {
        states_behind(alloc, units, kept.thermal.as_slice(), end)?
    };
    Ok(Carried {
        units: List::from_vec(states),
    })
}

// The units' own initial states.
fn initial_states(alloc: Global, units: &[Thermal]) -> Result<Vec<CarriedUnit>, NoMemory>
    ensures { IfOk result (λ states. AreInitialStates units.now (length units.now) states.items) }
{
    let mut states = Vec::new(alloc);
    for g in 0..units.len() {
        states.push(own_state(&units[g]))?;
    }
    Ok(states)
}

// The unit's own initial state.
fn own_state(unit: &Thermal) -> CarriedUnit
    ensures { result ≡ initial_state unit.now }
{
    CarriedUnit {
        on: unit.on0,
        output: unit.p0,
        time_on: unit.ut0,
        time_off: unit.dt0,
    }
}

// The states behind the rows of so many periods.
fn states_behind(
    alloc: Global,
    units: &[Thermal],
    rows: &[List<Cell>],
    end: usize,
) -> Result<Vec<CarriedUnit>, NoMemory>
    requires lawful { AreLawful units.now }
    requires some { 1 ≤ end }
    requires few { end ≤ MAX_PERIODS }
    requires rows { HasRows units.now rows.now end }
    ensures { IfOk result (λ states. AreStatesBehind units.now rows.now end (length units.now) states.items) }
{
    let mut states = Vec::new(alloc);
    for g in 0..units.len() {
        states.push(state_behind(&units[g], rows[g].as_slice(), end))?;
    }
    Ok(states)
}

// The state behind a row of so many periods.
fn state_behind(unit: &Thermal, row: &[Cell], end: usize) -> CarriedUnit
    requires lawful { IsLawfulThermal unit.now }
    requires some { 1 ≤ end }
    requires row { end ≤ length row.now }
    requires few { end ≤ MAX_PERIODS }
    requires last { IsWithinRange unit.now (cell row.now (end - 1)) }
    ensures left { IsLeftBy unit.now row.now end result }
    ensures lawful { IsLawfulState result }
{
    let last = &row[end - 1];
    let lasted = periods_lasted(row, end);
    CarriedUnit {
        on: last.on,
        output: output(unit, last),
        time_on: time_on_behind(unit, last, end, lasted),
        time_off: time_off_behind(unit, last, end, lasted),
    }
}

// The total output of a cell, the minimum included, in watts.
fn output(unit: &Thermal, last: &Cell) -> i64
    requires lawful { IsLawfulThermal unit.now }
    requires last { IsWithinRange unit.now last.now }
    ensures value { result ≡ total_output unit.now last.now }
    ensures size { IsPower result }
{
    if last.on { unit.pmin + last.p } else { 0 }
}

// For how many periods before the end the state has been that of the last one.
fn periods_lasted(row: &[Cell], end: usize) -> usize
    requires some { 1 ≤ end }
    requires row { end ≤ length row.now }
    ensures { HasLasted (commitment row.now) end result }
{
    let mut lasted = 1;
    for t in 1..end {
        lasted = if row[t].on == row[t - 1].on {
            lasted + 1
        } else {
            1
        };
    }
    lasted
}

// How long the unit counts as on, in hours, if its last cell is on: less than the minimum up time where it is too high to stop.
fn time_on_behind(unit: &Thermal, last: &Cell, end: usize, lasted: usize) -> u32
    requires lawful { IsLawfulThermal unit.now }
    requires lasted { lasted ≤ MAX_PERIODS }
    requires last { IsWithinRange unit.now last.now }
    ensures value { result ≡ (if last.now.on then time_on_left unit.now last.now end lasted else 0) }
    ensures size { result ≤ MAX_TIME }
{
    if !last.on {
        0
    } else if is_too_high(unit, last) {
        (unit.ut - 1).min(time_on(unit, end, lasted))
    } else {
        time_on(unit, end, lasted)
    }
}

// How long the unit has been off, in hours, if its last cell is off.
fn time_off_behind(unit: &Thermal, last: &Cell, end: usize, lasted: usize) -> u32
    requires lawful { IsLawfulThermal unit.now }
    requires lasted { lasted ≤ MAX_PERIODS }
    ensures value { result ≡ (if last.now.on then 0 else time_off_so_far unit.now end lasted) }
    ensures size { result ≤ MAX_TIME }
{
    if last.on {
        0
    } else {
        time_off(unit, end, lasted)
    }
}

// Whether output and reserve of the last cell are above what M10 leaves to a unit that stops behind it.
fn is_too_high(unit: &Thermal, last: &Cell) -> bool
    requires lawful { IsLawfulThermal unit.now }
    requires last { IsWithinRange unit.now last.now }
    ensures { result ≡ is_too_high_to_stop unit.now last.now }
{
    unit.stop_cap(true, true) < head(unit, last)
}

// The output of a cell with its reserve, in watts.
fn head(unit: &Thermal, last: &Cell) -> i64
    requires lawful { IsLawfulThermal unit.now }
    requires last { IsWithinRange unit.now last.now }
    ensures { result ≡ last.now.p +ℤ last.now.r }
{
    last.p + last.r
}

// How long the unit has been on, in hours.
fn time_on(unit: &Thermal, end: usize, lasted: usize) -> u32
    requires lawful { IsLawfulThermal unit.now }
    requires lasted { lasted ≤ MAX_PERIODS }
    ensures value { result ≡ time_on_so_far unit.now end lasted }
    ensures size { result ≤ MAX_TIME }
{
    let before = if lasted == end && unit.on0 {
        unit.ut0
    } else {
        0
    };
    MAX_TIME.min(lasted as u32 + before)
}

// How long the unit has been off, in hours.
fn time_off(unit: &Thermal, end: usize, lasted: usize) -> u32
    requires lawful { IsLawfulThermal unit.now }
    requires lasted { lasted ≤ MAX_PERIODS }
    ensures value { result ≡ time_off_so_far unit.now end lasted }
    ensures size { result ≤ MAX_TIME }
{
    let before = if lasted == end && !unit.on0 {
        unit.dt0
    } else {
        0
    };
    MAX_TIME.min(lasted as u32 + before)
}
