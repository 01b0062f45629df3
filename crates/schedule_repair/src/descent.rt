//! The search for a cheap schedule: commitments rounded at several thresholds, each improved unit by unit, and kicks of the best.

ghost use Rattle.std.specs.Prelude.{IfOk};
ghost use Rattle.uc_model.specs.Prelude.{IsLawfulInstance};
ghost use Rattle.uc_model.specs.declared.instance.Instance.{Instance};
ghost use Rattle.schedule_check.specs.Accepted.{IsAcceptedIfFound};

use crate::accepted::accepted;
use crate::kept::cost_of_state;
use crate::kicks::kick;
use crate::passes::{
    Units, pass, pass_hard, pass_outputs, set_full_prices, set_soft_prices, soft_price,
};
use crate::printing::printed_of;
use crate::room::Repair;
use crate::rounding::round;
use dual_model::Table;
use std::alloc::Global;
use uc_model::{Instance, NoMemory, Printed};

/// A unit's share has to be above a threshold to count as on, in parts of 2^16: a fifth, a half, a twentieth and a thousandth, in
/// this order.
pub(crate) const THRESHOLDS: [i64; 4] = [13107, 32768, 3277, 66];

/// The passes in which missing reserve is cheap, at twice the least price from one to the next.
const SOFT_PASSES: u32 = 8;

/// The most passes after them, in which missing reserve has its full price.
const HARD_PASSES: u32 = 6;

/// The passes over the outputs behind each of those that changes a pattern.
const OUTPUTS: u32 = 1;

/// The passes over the outputs alone with which a descent begins, so that patterns are judged beside outputs that suit them.
const FIRST_OUTPUTS: u32 = 3;

/// Descents after which no further one is made once a schedule costs little enough have taken so many moves or more.
const FEW_MOVES: u32 = 1000;

/// Outputs are swapped in states that cost more than the best one by at most this part.
const NEAR: i64 = 1 << 10;

/// A state's cost, whose rates are rounded, is taken for less than its schedule's by this part.
const ROUNDING: i64 = 1 << 18;

/// The cheapest schedule that so many moves find, with its cost in micro-dollars; `None` where they find none. A move is the search for
/// one unit's best pattern. From the shares of an ascent to the table the units are put on patterns at several thresholds in the first
/// repair of the room, and at one of them in turn in each later one, and improved; what is left of the moves then goes into kicks of the best
/// state of all repairs. A schedule that costs at most `enough` ends the search: there are no kicks then, and no further threshold where
/// one takes long. The only error is `NoMemory`.
pub fn repair(
    alloc: Global,
    room: &mut Repair,
    instance: &Instance,
    table: &Table,
    shares: &[i64],
    moves: u32,
    enough: i64,
) -> Result<Option<(Printed, i64)>, NoMemory>
    requires lawful { IsLawfulInstance instance.now }
    ensures accepted { IfOk result (IsAcceptedIfFound instance.now) }
{
    room.begin(moves);
    let mut best = None;
    let (first, count) = room.next_thresholds();
    for threshold in THRESHOLDS.iter().skip(first).take(count) {
        if room.spent() < FEW_MOVES || !is_enough(&best, enough) {
            let found = descent(alloc, room, instance, table, shares, *threshold)?;
            best = cheaper(best, found);
        }
    }
    if is_enough(&best, enough) {
        return Ok(best);
    }
    let found = kicked(alloc, room, instance, table, enough)?;
    Ok(cheaper(best, found))
}

// The schedule of the best state after kicks, if they found a better one.
fn kicked(
    alloc: Global,
    room: &mut Repair,
    instance: &Instance,
    table: &Table,
    enough: i64,
) -> Result<Option<(Printed, i64)>, NoMemory>
    requires lawful { IsLawfulInstance instance.now }
    ensures accepted { IfOk result (IsAcceptedIfFound instance.now) }
{
    let before = room.kept.cost;
    kick(room, instance, table, aim(before, enough))?;
    if room.kept.cost == before {
        return Ok(None);
    }
    room.kept.restore(&room.plant, &mut room.state);
    offer(alloc, room, instance)
}

// Whether there is a schedule that costs at most so much.
fn is_enough(best: &Option<(Printed, i64)>, enough: i64) -> bool {
    match best {
        Some((_, cost)) => *cost <= enough,
        None => false,
    }
}

// The cost of a state at which its schedule costs at most so much; none where the best state costs no more and its schedule doesn't do.
fn aim(kept: i64, enough: i64) -> i64 {
    let aim = enough.saturating_sub(enough.saturating_abs() / ROUNDING);
    if kept <= aim { i64::MIN } else { aim }
}

// The schedule that a descent from a threshold finds, which is kept if it is the cheapest so far.
fn descent(
    alloc: Global,
    room: &mut Repair,
    instance: &Instance,
    table: &Table,
    shares: &[i64],
    threshold: i64,
) -> Result<Option<(Printed, i64)>, NoMemory>
    requires lawful { IsLawfulInstance instance.now }
    ensures accepted { IfOk result (IsAcceptedIfFound instance.now) }
{
    let rounded = round(&room.plant, &mut room.state, shares, threshold);
    if !rounded || room.left == 0 {
        return Ok(None);
    }
    room.state.load(&room.plant, instance.periods);
    descend(room, instance, table)?;
    offer(alloc, room, instance)
}

// The schedule of the state with its cost, if it is accepted. The state is kept if it is the cheapest so far, and refined if none is
// cheaper. Where hardly any is cheaper, outputs are swapped for the schedule, but not for what is kept.
fn offer(
    alloc: Global,
    room: &mut Repair,
    instance: &Instance,
) -> Result<Option<(Printed, i64)>, NoMemory>
    requires lawful { IsLawfulInstance instance.now }
    ensures { IfOk result (IsAcceptedIfFound instance.now) }
{
    room.state.recenter(&room.plant, instance.periods);
    let cost = cost_of_state(&room.plant, &mut room.state, instance);
    room.kept.keep_cheaper(&room.state, cost);
    if room.plant.is_ramped && cost <= room.kept.cost {
        refine(room, instance);
    }
    if room.plant.is_ramped && is_near(cost, room.kept.cost) {
        room.state.swap(&room.plant, instance.periods)?;
    }
    let printed = printed_of(alloc, &room.plant, &room.state, instance)?;
    Ok(match accepted(instance, &printed) {
        Some(cost) => Some((printed, cost)),
        None => None,
    })
}

// Whether a cost is less than the best state's, or hardly more.
fn is_near(cost: i64, best: i64) -> bool {
    cost.saturating_sub(best) <= best.saturating_abs() / NEAR
}

// Refines the outputs of the state, which is kept, as far as that makes it cheaper.
fn refine(room: &mut Repair, instance: &Instance)
    requires lawful { IsLawfulInstance instance.now }
{
    room.state.refine(&room.plant, instance.periods);
    if !room.kept.keep(&room.plant, &mut room.state, instance) {
        room.kept.restore(&room.plant, &mut room.state);
    }
}

// The cheaper of two schedules that may be missing.
fn cheaper(first: Option<(Printed, i64)>, second: Option<(Printed, i64)>) -> Option<(Printed, i64)>
    ensures { (instance : Instance) → IsAcceptedIfFound instance first → IsAcceptedIfFound instance second → IsAcceptedIfFound instance result }
{
    match (first, second) {
        (Some(first), Some(second)) => Some(if second.1 < first.1 { second } else { first }),
        (None, second) => second,
        (first, None) => first,
    }
}

// Improves all units in passes until none gains, their outputs first.
fn descend(room: &mut Repair, instance: &Instance, table: &Table) -> Result<(), NoMemory>
    requires lawful { IsLawfulInstance instance.now }
{
    set_full_prices(&mut room.state.periods, &room.plant.market);
    pass_outputs(room, instance, FIRST_OUTPUTS)?;
    let mut least = soft_price(&room.plant.market);
    for _ in 0..SOFT_PASSES {
        set_soft_prices(&room.plant.market, &mut room.state.periods, table, least);
        pass(room, instance, Units::All)?;
        least = least.saturating_mul(2);
    }
    pass_hard(room, instance, Units::All, HARD_PASSES, OUTPUTS)
}
