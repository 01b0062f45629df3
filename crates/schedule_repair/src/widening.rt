//! Longer runs: a unit whose ramps can bind begins sooner or stops later where demand stays unserved that it can't reach else.

ghost use Rattle.uc_model.specs.Prelude.{IsLawfulInstance};

use crate::moves::{Attempt, improve_within, most_cost};
use repair_state::{Decided, Plant, RepairState, is_on};
use uc_model::{Instance, NoMemory, Pattern};

/// Lets a unit whose ramps can bind be on a period longer, before or behind its runs to periods in which demand stays unserved and the unit
/// doesn't reach its most, where that costs less; and tells whether it does. The only error is `NoMemory`.
pub(crate) fn widen(
    plant: &Plant,
    state: &mut RepairState,
    instance: &Instance,
    g: usize,
) -> Result<bool, NoMemory>
    requires lawful { IsLawfulInstance instance.now }
{
    let mut has_changed = false;
    let mut last = NO_ENDS;
    let count = if plant.market.may_shed() {
        instance.periods
    } else {
        0
    };
    for t in 0..count {
        if is_wanted(plant, state, g, t) && g < state.patterns.len() {
            let ends = ends_of_run(&state.patterns[g], t, instance.periods);
            if !are_same(&ends, &last) {
                let before = widen_run(plant, state, instance, g, Side::Before(t))?;
                let behind = widen_run(plant, state, instance, g, Side::Behind(t))?;
                has_changed = has_changed || before || behind;
                last = ends;
            }
        }
    }
    Ok(has_changed)
}

// The period before a run of a pattern and the one behind it, where there are any.
#[derive(Clone, Copy)]
struct Ends {
    before: Option<u32>,
    behind: Option<u32>,
}

const NO_ENDS: Ends = Ends {
    before: None,
    behind: None,
};

fn are_same(first: &Ends, second: &Ends) -> bool {
    first.before == second.before && first.behind == second.behind
}

// The ends of the run that a period is in.
fn ends_of_run(pattern: &Pattern, t: u32, count: u32) -> Ends {
    let mut ends = NO_ENDS;
    for s in 0..t {
        if !is_on(pattern, s) {
            ends.before = Some(s);
        }
    }
    for s in t..count {
        if !is_on(pattern, s) {
            ends.behind = Some(s);
            break;
        }
    }
    ends
}

// Whether demand stays unserved in a period in which unit g, whose ramps can bind, is on and doesn't reach its most.
fn is_wanted(plant: &Plant, state: &RepairState, g: usize, t: u32) -> bool {
    let i = t as usize;
    if g >= plant.units.len() || g >= state.rows.len() {
        return false;
    }
    let (unit, row) = (&plant.units[g], &state.rows[g]);
    unit.is_ramped
        && i < row.len()
        && i < state.periods.len()
        && unit.could_give_more(&row[i])
        && state.periods[i].is_unserved(&plant.market)
}

// What is decided of a unit, and that it is on between these ends.
fn with_run(fix: &Decided, ends: &Ends, count: u32) -> Decided {
    let first = match ends.before {
        Some(t) => t.saturating_add(1),
        None => 0,
    };
    let end = match ends.behind {
        Some(t) => t,
        None => count,
    };
    let mut held = *fix;
    for t in first..end {
        held = held.with_turn(t, true);
    }
    held
}

// On which side of the run in a period a period more is tried.
#[derive(Clone, Copy)]
enum Side {
    Before(u32),
    Behind(u32),
}

// Lets unit g be on a period longer on this side of a run, if there is one, where that costs less; and tells whether it does.
fn widen_run(
    plant: &Plant,
    state: &mut RepairState,
    instance: &Instance,
    g: usize,
    side: Side,
) -> Result<bool, NoMemory>
    requires lawful { IsLawfulInstance instance.now }
{
    if g >= plant.units.len() || g >= state.patterns.len() {
        return Ok(false);
    }
    let unit = &plant.units[g];
    let Some(fix) = widened(&unit.fix, &state.patterns[g], side, instance.periods) else {
        return Ok(false);
    };
    let attempt = Attempt {
        fix,
        most: most_cost(&plant.market, state, unit, false),
    };
    improve_within(plant, state, instance, g, &attempt)
}

// What is decided of a unit, and that its run is a period longer on this side, if there is one.
fn widened(fix: &Decided, pattern: &Pattern, side: Side, count: u32) -> Option<Decided> {
    let (t, is_before) = match side {
        Side::Before(t) => (t, true),
        Side::Behind(t) => (t, false),
    };
    let ends = ends_of_run(pattern, t, count);
    let held = with_run(fix, &ends, count);
    match if is_before { ends.before } else { ends.behind } {
        Some(end) => Some(held.with_turn(end, true)),
        None => None,
    }
}
