//! Passes over the units, and what missing reserve costs in them.

ghost use Rattle.uc_model.specs.Prelude.{IsLawfulInstance};

use crate::chance::Chance;
use crate::moves::{improve, improve_outputs};
use crate::room::{Repair, Visit};
use crate::size::is_small;
use crate::tried::mark_of_try;
use crate::turns::Turns;
use crate::widening::widen;
use dual_model::Table;
use repair_state::{Market, PART, Period, rate_within};
use uc_model::{Instance, NoMemory};

/// Missing reserve costs at least so many hundredths of a watt in the middle of the order of merit where it is cheap.
const SOFT_PRICE: i64 = 30;

/// The units of a pass: all, those that have a turn, or all of these but one.
#[derive(Clone, Copy)]
pub(crate) enum Units {
    All,
    Listed,
    ListedBut(usize),
}

/// Improves each of the units once, in an order by chance, as long as moves are left, and centres the windows of those whose ramps can
/// bind; and tells whether a pattern has changed. The only error is `NoMemory`.
pub(crate) fn pass(room: &mut Repair, instance: &Instance, units: Units) -> Result<bool, NoMemory>
    requires lawful { IsLawfulInstance instance.now }
{
    shuffle(&mut room.visits, &mut room.chance)?;
    let mut has_changed = false;
    for i in 0..room.visits.len() {
        let changed = visit(room, instance, units, i)?;
        has_changed = has_changed || changed;
    }
    if room.plant.is_ramped {
        room.state.recenter(&room.plant, instance.periods);
    }
    Ok(has_changed)
}

/// Makes passes at full prices until one changes no pattern, at most so many, with so many over the outputs behind each that does. The
/// only error is `NoMemory`.
pub(crate) fn pass_hard(
    room: &mut Repair,
    instance: &Instance,
    units: Units,
    most: u32,
    outputs: u32,
) -> Result<(), NoMemory>
    requires lawful { IsLawfulInstance instance.now }
{
    set_full_prices(&mut room.state.periods, &room.plant.market);
    for _ in 0..most {
        if !pass(room, instance, units)? {
            break;
        }
        pass_outputs(room, instance, outputs)?;
    }
    Ok(())
}

/// Passes over the outputs alone, but in a small system: so many times, each unit whose ramps can bind gives what is best beside the others
/// on its pattern, in an order by chance, as long as moves are left. The only error is `NoMemory`.
pub(crate) fn pass_outputs(
    room: &mut Repair,
    instance: &Instance,
    times: u32,
) -> Result<(), NoMemory>
    requires lawful { IsLawfulInstance instance.now }
{
    if !room.plant.is_ramped || is_small(instance) {
        return Ok(());
    }
    for _ in 0..times {
        shuffle(&mut room.visits, &mut room.chance)?;
        for i in 0..room.visits.len() {
            visit_outputs(room, instance, i)?;
        }
        room.state.recenter(&room.plant, instance.periods);
    }
    Ok(())
}

// Improves the outputs of the unit of visit i, if its ramps can bind and a move is left.
fn visit_outputs(room: &mut Repair, instance: &Instance, i: usize) -> Result<(), NoMemory>
    requires lawful { IsLawfulInstance instance.now }
{
    match room.visits.get(i) {
        Some(visit) if room.left > 0 && room.plant.is_ramped_at(visit.unit) => {
            room.left = room.left.saturating_sub(1);
            improve_outputs(&room.plant, &mut room.state, instance, visit.unit)
        }
        _ => Ok(()),
    }
}

// Improves the unit of visit i, if it is one of the units, a move is left and it wasn't tried; and tells whether its pattern has changed.
fn visit(room: &mut Repair, instance: &Instance, units: Units, i: usize) -> Result<bool, NoMemory>
    requires lawful { IsLawfulInstance instance.now }
{
    let g = match room.visits.get(i) {
        Some(visit) => visit.unit,
        None => return Ok(false),
    };
    if room.left == 0
        || !is_visited(&room.turns, units, g)
        || room.tried.has(mark_of_try(&room.state.periods, g))
    {
        return Ok(false);
    }
    room.left = room.left.saturating_sub(1);
    let improved = improve(&room.plant, &mut room.state, instance, g, None)?;
    let widened = widen(&room.plant, &mut room.state, instance, g)?;
    room.tried.put(mark_of_try(&room.state.periods, g));
    Ok(improved || widened)
}

fn is_visited(turns: &Turns, units: Units, g: usize) -> bool {
    match units {
        Units::All => true,
        Units::Listed => turns.is_listed(g),
        Units::ListedBut(other) => g != other && turns.is_listed(g),
    }
}

// Orders the visits by chance.
fn shuffle(visits: &mut Vec<Visit>, chance: &mut Chance) -> Result<(), NoMemory> {
    for visit in visits.iter_mut() {
        visit.key = chance.next();
    }
    visits.sort_by_key(|visit| visit.key)?;
    Ok(())
}

/// What missing reserve costs at least where it is cheap.
pub(crate) fn soft_price(market: &Market) -> i64 {
    market.middle.saturating_mul(SOFT_PRICE) / 100
}

/// Makes missing reserve as cheap as its price in the table, or as this price if it is more; but no dearer than it is where it may be
/// missing.
pub(crate) fn set_soft_prices(market: &Market, periods: &mut [Period], table: &Table, least: i64) {
    let most = if market.may_miss() {
        market.missing
    } else {
        i64::MAX
    };
    let prices = table.mu();
    for t in 0..periods.len().min(prices.len()) {
        let rate = least.max(rate_of(prices[t], table.k()));
        periods[t].reserve_rate = rate.min(most);
    }
}

// The rate of a price at a scale.
fn rate_of(price: i64, scale: i64) -> i64 {
    let rate = i128::from(price).saturating_mul(i128::from(PART)) / i128::from(scale.max(1));
    rate_within(&rate)
}

/// Makes missing reserve as dear as it is.
pub(crate) fn set_full_prices(periods: &mut [Period], market: &Market) {
    for period in periods.iter_mut() {
        period.reserve_rate = market.missing;
    }
}
