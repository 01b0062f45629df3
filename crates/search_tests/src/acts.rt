//! Events as plain values, on a tree over one thermal unit and one or two periods.

ghost use Rattle.std.specs.Prelude.{◌≡◌, ◌<◌, ◌≤◌, IfOk, length};

use branch_tree::Outcome;
use dual_model::Table;
use search_core::{Event, Move, State, StepFault};
use std::alloc::Global;
use std::test::Fail;
use uc_model::NoMemory;

/// An event; a commit's table is told by its scale alone, and `Exact` is a commit by the exact value.
#[derive(Clone, Copy)]
pub(crate) enum Act {
    Claim(u8, u32),
    Commit(u8, u32, u32, Outcome, Move),
    Exact(u8, u32, u32, Outcome, Move),
    Publish(u8, i64),
    Look(u8),
    Push(u8, u32),
    Pop(u8),
    Steal(u8, u8),
}

// The table of no prices at this scale.
fn table(alloc: Global, scale: u32) -> Result<Table, NoMemory> {
    Table::new(alloc, 1, i64::from(scale), &[0], &[0], &[])
}

// The event that is meant.
fn event(alloc: Global, act: Act) -> Result<Event, NoMemory> {
    Ok(match act {
        Act::Claim(worker, node) => Event::Claim { worker, node },
        Act::Commit(worker, unit, scale, outcome, action)
        | Act::Exact(worker, unit, scale, outcome, action) => Event::Commit {
            worker,
            unit,
            table: table(alloc, scale)?,
            exact: matches!(act, Act::Exact(..)),
            outcome,
            action,
        },
        Act::Publish(worker, cost) => Event::Publish { worker, cost },
        Act::Look(worker) => Event::Look { worker },
        Act::Push(worker, node) => Event::Push { worker, node },
        Act::Pop(worker) => Event::Pop { worker },
        Act::Steal(worker, victim) => Event::Steal { worker, victim },
    })
}

/// A root at the table of scale 1, with bound 5; the gap is a tenth.
pub(crate) fn start(alloc: Global, periods: u32, workers: u8, budget: u32) -> Result<State, Fail>
    requires workers { 0 < workers }
    requires budget { budget ≤ 1000000 }
    ensures { IfOk result (λ state. length state.desks ≡ workers) }
{
    let opening = table(alloc, 1).map_err(|_| "no memory")?;
    match State::start(alloc, 1, periods, workers, budget, 100_000, opening, 5) {
        Ok(state) => Ok(state),
        Err(_) => Err("no memory".into()),
    }
}

/// Whether the event is legal; its step is taken then.
pub(crate) fn is_taken(alloc: Global, state: &mut State, act: Act) -> Result<bool, Fail>
    ensures { length state.new.desks ≡ length state.old.desks }
{
    match state.step(alloc, event(alloc, act).map_err(|_| "no memory")?) {
        Ok(()) => Ok(true),
        Err(StepFault::NotLegal(_)) => Ok(false),
        Err(StepFault::NoMemory) => Err("no memory".into()),
    }
}
