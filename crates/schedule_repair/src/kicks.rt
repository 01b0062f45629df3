//! A kick: a state near the best one is left by a turn that costs little, and improved anew.

ghost use Rattle.uc_model.specs.Prelude.{IsLawfulInstance};

use crate::chance::CHANCES;
use crate::kept::cost_of_state;
use crate::moves::improve;
use crate::passes::{Units, pass, pass_hard, set_soft_prices, soft_price};
use crate::room::Repair;
use crate::size::is_small;
use dual_model::Table;
use repair_state::Decided;
use uc_model::{Instance, NoMemory};

/// The most passes of a kick in which missing reserve has its full price. No pass over the outputs follows them.
const PASSES: u32 = 2;

/// Turns that cost more than this part of the best state's cost are left alone; in a small system, those that cost more than all of it.
const SPAN: i64 = 200;

/// So many of `CHANCES` kicks begin with missing reserve cheap: three of four.
const SOFT_KICKS: u64 = CHANCES / 4 * 3;

/// So many searches of a pattern count as one move where turns are listed, since the rest of a move is shared there.
const SEARCHES: usize = 4;

/// Kicks states near the best one, from it on, as long as moves are left in the room and it costs more than the aim. The only error is `NoMemory`.
pub(crate) fn kick(
    room: &mut Repair,
    instance: &Instance,
    table: &Table,
    aim: i64,
) -> Result<(), NoMemory>
    requires lawful { IsLawfulInstance instance.now }
{
    room.kept.restore(&room.plant, &mut room.state);
    room.walk.begin(&room.kept);
    for _ in 0..room.left {
        if room.left == 0 || room.kept.cost <= aim {
            break;
        }
        if room.turns.are_old(room.kept.cost) {
            list_turns(room, instance)?;
        }
        kick_once(room, instance, table)?;
    }
    Ok(())
}

// Lists the turns of the state at hand that cost little, for which the search of a pattern in each cell takes moves.
fn list_turns(room: &mut Repair, instance: &Instance) -> Result<(), NoMemory>
    requires lawful { IsLawfulInstance instance.now }
{
    let cells = room.visits.len().saturating_mul(instance.periods as usize);
    room.left = match u32::try_from(cells / SEARCHES) {
        Ok(moves) => room.left.saturating_sub(moves),
        Err(_) => 0,
    };
    let turns = &mut room.turns;
    let cost = room.kept.cost;
    turns.list(
        &room.plant,
        &mut room.state,
        instance.periods,
        cost,
        most_above(cost, instance),
    )
}

// What a turn may cost more, where the best state costs so much.
fn most_above(cost: i64, instance: &Instance) -> i64 {
    let size = cost.saturating_abs();
    if is_small(instance) {
        size
    } else {
        size / SPAN
    }
}

// Turns a cell, improves the other units that have turns, and then the unit of the cell too; and keeps what is the cheapest so far.
fn kick_once(room: &mut Repair, instance: &Instance, table: &Table) -> Result<(), NoMemory>
    requires lawful { IsLawfulInstance instance.now }
{
    let Some(turn) = room.turns.choose(&mut room.chance) else {
        room.left = 0;
        return Ok(());
    };
    room.left = room.left.saturating_sub(2);
    if room.chance.next() < SOFT_KICKS {
        let least = soft_price(&room.plant.market);
        set_soft_prices(&room.plant.market, &mut room.state.periods, table, least);
    }
    turn_unit(room, instance, turn.unit, Some(&turn.fix))?;
    pass(room, instance, Units::ListedBut(turn.unit))?;
    turn_unit(room, instance, turn.unit, None)?;
    pass_hard(room, instance, Units::Listed, PASSES, 0)?;
    let cost = cost_of_state(&room.plant, &mut room.state, instance);
    if room.kept.keep_cheaper(&room.state, cost) {
        room.walk.begin(&room.kept);
    } else {
        room.walk
            .go_on(&room.plant, &mut room.state, &room.kept, cost);
    }
    Ok(())
}

// Improves a unit, under a fix that turns it.
fn turn_unit(
    room: &mut Repair,
    instance: &Instance,
    g: usize,
    turned: Option<&Decided>,
) -> Result<(), NoMemory>
    requires lawful { IsLawfulInstance instance.now }
{
    improve(&room.plant, &mut room.state, instance, g, turned)?;
    Ok(())
}
