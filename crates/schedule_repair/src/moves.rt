//! A move: one unit's pattern is made the best beside those of all others.

ghost use Rattle.uc_model.specs.Prelude.{IsLawfulInstance, IsLawfulThermal};

use repair_state::{
    Beside, Cells, Decided, Known, Market, Period, Plant, RepairState, TriedUnit, Unit, WAYS,
    Window, cells_of, copy_row, exchange, is_on, keep_ramps, narrow, open, shift, total, unit_at,
};
use start_costs::least_allowed;
use uc_model::limits::MAX_PERIODS;
use uc_model::{Instance, NoMemory, Pattern, Thermal};

/// Makes unit g's pattern the best beside the others, or the best of those that are as `turned` decides, whatever it costs; and tells
/// whether the pattern has changed. The only error is `NoMemory`.
pub(crate) fn improve(
    plant: &Plant,
    state: &mut RepairState,
    instance: &Instance,
    g: usize,
    turned: Option<&Decided>,
) -> Result<bool, NoMemory>
    requires lawful { IsLawfulInstance instance.now }
{
    if g >= plant.units.len() {
        return Ok(false);
    }
    let unit = &plant.units[g];
    let attempt = Attempt {
        fix: fix_of(unit, turned),
        most: most_cost(&plant.market, state, unit, turned.is_some()),
    };
    improve_within(plant, state, instance, g, &attempt)
}

/// Makes unit g's outputs the best beside the others, on its pattern. The only error is `NoMemory`.
pub(crate) fn improve_outputs(
    plant: &Plant,
    state: &mut RepairState,
    instance: &Instance,
    g: usize,
) -> Result<(), NoMemory>
    requires lawful { IsLawfulInstance instance.now }
{
    if g < plant.units.len() && g < state.patterns.len() {
        let attempt = Attempt {
            fix: Decided::whole(state.patterns[g]),
            most: most_cost(&plant.market, state, &plant.units[g], false),
        };
        improve_within(plant, state, instance, g, &attempt)?;
    }
    Ok(())
}

/// What is decided of a unit, and what the system has to cost less than, without starts, where the unit's ramps can bind.
#[derive(Clone, Copy)]
pub(crate) struct Attempt {
    pub fix: Decided,
    pub most: i64,
}

/// Makes unit g's pattern the best beside the others of those that the attempt leaves, and tells whether it has changed. The only error
/// is `NoMemory`.
pub(crate) fn improve_within(
    plant: &Plant,
    state: &mut RepairState,
    instance: &Instance,
    g: usize,
    attempt: &Attempt,
) -> Result<bool, NoMemory>
    requires lawful { IsLawfulInstance instance.now }
{
    match unit_at(instance, g) {
        Some(thermal) if g < plant.units.len() => {
            let (market, unit) = (&plant.market, &plant.units[g]);
            fill_cells(market, state, unit, g);
            let changed = match state.course.best(unit, &attempt.fix, &state.cells, false) {
                Some((_, pattern)) => {
                    let count = instance.periods;
                    let aim = Aim {
                        pattern,
                        count,
                        most: attempt.most,
                    };
                    put_on(market, state, unit, thermal, g, &aim)
                }
                None => Ok(false),
            };
            put_back(market, state, unit, g);
            changed
        }
        _ => Ok(false),
    }
}

/// What the system may cost with new outputs of a unit whose ramps can bind, without its starts: less than it does, or anything where
/// the unit has to turn.
pub(crate) fn most_cost(
    market: &Market,
    state: &mut RepairState,
    unit: &Unit,
    has_to_turn: bool,
) -> i64 {
    if unit.is_ramped && !has_to_turn {
        total(market, &mut state.periods)
    } else {
        i64::MAX
    }
}

// What is decided of a unit.
fn fix_of(unit: &Unit, turned: Option<&Decided>) -> Decided {
    match turned {
        Some(fix) => *fix,
        None => unit.fix,
    }
}

/// Fills unit g's cells beside the others. A unit whose ramps can bind is taken away from them.
pub(crate) fn fill_cells(market: &Market, state: &mut RepairState, unit: &Unit, g: usize) {
    if g < state.rows.len() && g < state.known.len() {
        fill_row(
            market,
            &mut state.periods,
            unit,
            &state.rows[g],
            &mut state.known[g],
            &mut state.cells,
        );
    }
}

// Fills the cells of a unit in its windows.
fn fill_row(
    market: &Market,
    periods: &mut [Period],
    unit: &Unit,
    row: &[Window],
    known: &mut [Known],
    cells: &mut [Cells],
) {
    for t in 0..periods.len().min(row.len()).min(cells.len()) {
        let key = periods[t].key_without(unit, &row[t]);
        let way = (key >> 32) as usize % WAYS;
        let place = t.saturating_mul(WAYS).saturating_add(way);
        if place < known.len() {
            reckon(
                market,
                &mut periods[t],
                unit,
                &row[t],
                key,
                &mut known[place],
            );
            cells[t] = known[place].cells;
        }
    }
}

// Reckons the cells of a unit in its window, unless those by this key are known. A unit whose ramps can bind is taken away.
fn reckon(
    market: &Market,
    period: &mut Period,
    unit: &Unit,
    window: &Window,
    key: u64,
    known: &mut Known,
) {
    let is_known = known.key == key;
    if unit.is_ramped || !is_known {
        period.shift(market, unit, window, -1);
    }
    if !is_known {
        let cells = cells_of(market, period, unit);
        *known = Known { key, cells };
    }
    if !unit.is_ramped && !is_known {
        period.shift(market, unit, window, 1);
    }
}

/// Puts unit g back into its windows, if it is away.
pub(crate) fn put_back(market: &Market, state: &mut RepairState, unit: &Unit, g: usize) {
    if unit.is_ramped && g < state.rows.len() {
        shift(market, &mut state.periods, unit, &state.rows[g], 1);
    }
}

// The pattern on which a unit is to be put in so many periods, and what the system has to cost less than, without the unit's starts so far,
// where its ramps can bind.
#[derive(Clone, Copy)]
struct Aim {
    pattern: Pattern,
    count: u32,
    most: i64,
}

// Puts unit g on the pattern; where its ramps can bind only if that costs little enough, and else on the pattern so far with other
// outputs that do. Tells whether the pattern has changed.
fn put_on(
    market: &Market,
    state: &mut RepairState,
    unit: &Unit,
    thermal: &Thermal,
    g: usize,
    aim: &Aim,
) -> Result<bool, NoMemory>
    requires lawful { IsLawfulThermal thermal.now }
{
    if g >= state.patterns.len() || g >= state.rows.len() {
        return Ok(false);
    }
    let before = state.patterns[g];
    let is_other = before != aim.pattern;
    if !unit.is_ramped {
        if is_other {
            state.patterns[g] = aim.pattern;
            put_freely(market, state, unit, g, aim);
        }
        return Ok(is_other);
    }
    let most = aim
        .most
        .saturating_add(start_cost(thermal, &before, aim.count));
    let beside = Beside {
        market,
        periods: &state.periods,
        cells: &state.cells,
        unit,
        count: aim.count,
    };
    let (trial, row) = (&mut state.trial, state.rows[g].as_mut_slice());
    if is_other && take(&beside, thermal, &aim.pattern, most, trial, row)? {
        state.patterns[g] = aim.pattern;
        return Ok(true);
    }
    take(&beside, thermal, &before, most, trial, row)?;
    Ok(false)
}

// Opens the windows of unit g, whose ramps can't bind, on the pattern.
fn put_freely(market: &Market, state: &mut RepairState, unit: &Unit, g: usize, aim: &Aim) {
    if g < state.rows.len() {
        let opened = state.trial.row.as_mut_slice();
        copy_row(&state.rows[g], opened);
        open(unit, &aim.pattern, aim.count, opened);
        exchange(market, &mut state.periods, unit, &mut state.rows[g], opened);
    }
}

// Takes windows of a pattern, round outputs that keep the ramps, if it costs less than so much with its starts; and tells whether.
fn take(
    beside: &Beside,
    thermal: &Thermal,
    pattern: &Pattern,
    most: i64,
    trial: &mut TriedUnit,
    row: &mut [Window],
) -> Result<bool, NoMemory>
    requires lawful { IsLawfulThermal thermal.now }
{
    track(beside, pattern, trial)?;
    let starts = start_cost(thermal, pattern, beside.count);
    if !beside.is_below(&trial.row, most.saturating_sub(starts)) {
        return Ok(false);
    }
    narrow(beside.unit, beside.periods, &mut trial.row);
    copy_row(&trial.row, row);
    Ok(true)
}

// Centres windows on the outputs that are best in each period alone, moved until they keep the ramps; or in all periods together where
// something is lacking then.
fn track(beside: &Beside, pattern: &Pattern, trial: &mut TriedUnit) -> Result<(), NoMemory> {
    let row = trial.row.as_mut_slice();
    center(beside.cells, row);
    open(beside.unit, pattern, beside.count, row);
    keep_ramps(beside.unit, row);
    if beside.is_lacking(row) {
        trial.trajectory.center(beside, row)?;
        keep_ramps(beside.unit, row);
    }
    Ok(())
}

// Centres windows on the outputs that are best in each period alone.
fn center(cells: &[Cells], row: &mut [Window]) {
    for t in 0..row.len().min(cells.len()) {
        row[t].power = cells[t].power;
    }
}

/// What the starts of a pattern cost.
pub(crate) fn start_cost(unit: &Thermal, pattern: &Pattern, count: u32) -> i64
    requires lawful { IsLawfulThermal unit.now }
{
    let mut cost: i64 = 0;
    let mut was_on = unit.on0;
    for t in 0..count {
        let on = is_on(pattern, t);
        if on && !was_on && t < MAX_PERIODS {
            cost = cost.saturating_add(least_allowed(unit, pattern, t as usize).1);
        }
        was_on = on;
    }
    cost
}
