//! Rolling windows: one search after another, each from the state that the periods kept before it leave.

ghost use Rattle.std.specs.Prelude.{◌≡◌, ◌≤◌, ◌<◌, ℕ, false, IfOk, IfSome, None};
ghost use Rattle.uc_model.specs.Prelude.{IsLawfulInstance};
ghost use Rattle.uc_model.specs.declared.limits.TheConstants.{MAX_PERIODS};
ghost use Rattle.roll.specs.Prelude.{IsNextPlace};
ghost use Rattle.tree_search.specs.Options.{AreOptions};
ghost use Rattle.workers.specs.Rolling.{IsRolled};
ghost use Rattle.workers.specs.inside.Rolls.{IsPlan, IsKeptSoFar, IsFoundAhead, IsShownAhead, IsStep};

use crate::root_search::search;
use branch_tree::Found;
use node_visits::beside;
use outside::Gate;
use roll::{Place, Rolled, begin, carry, next_place, stitch, whole_cost, window};
use std::alloc::Global;
use std::sync::Wait;
use std::thread::Threads;
use tree_search::Options;
use uc_model::{Instance, NoMemory, Printed};

/// What is rolled, how each window is searched, how many periods a window has, and how many of them are kept.
#[derive(Clone, Copy)]
pub(crate) struct Plan<'a> {
    pub instance: &'a Instance,
    pub options: &'a Options,
    pub window: u32,
    pub step: u32,
}

/// What is kept so far: a schedule of the first `done` periods, of so many windows.
#[derive(Drop)]
pub(crate) struct Kept {
    pub schedule: Printed,
    pub done: u32,
    pub windows: u32,
}

/// What a window gives: more that is kept, or the end of the roll.
#[derive(Drop)]
pub(crate) enum Step {
    Further(Kept),
    Ended(Rolled),
}

/// Rolls the instance. Each window is searched by the options, from the state that the kept schedule leaves; it has `window` periods, or
/// those that are left. The first `step` of its schedule are kept, but no more than it has, and all where it reaches the last period. In
/// the schedule of all periods each start has the cheapest category that the whole history allows. The roll stops at the first window
/// whose search finds no schedule. The options have no `pivot`, as what is kept is in whole watts. The only error is `NoMemory`.
pub fn roll<R: Threads + Wait + Sync, G: Gate + Sync>(
    rt: &R,
    alloc: Global,
    instance: &Instance,
    options: &Options,
    window: u32,
    step: u32,
    gate: &G,
) -> Result<Rolled, NoMemory>
    requires lawful { IsLawfulInstance instance.now }
    requires options { AreOptions options.now }
    requires pivot { options.now.pivot ≡ false }
    requires window { (1 ≤ window) × (window ≤ MAX_PERIODS) }
    requires step { (1 ≤ step) × (step ≤ MAX_PERIODS) }
    ensures { IfOk result (IsRolled options.now.exact_units instance.now options.now.budget options.now.gap window step) }
{
    let plan = Plan {
        instance,
        options,
        window,
        step,
    };
    let mut kept = nothing(alloc, plan)?;
    while kept.done < instance.periods {
        match further(rt, alloc, plan, kept, gate)? {
            Step::Further(more) => kept = more,
            Step::Ended(rolled) => return Ok(rolled),
        }
    }
    Ok(whole(plan, kept))
}

// Nothing is kept yet. The only error is `NoMemory`.
fn nothing(alloc: Global, plan: Plan) -> Result<Kept, NoMemory>
    requires { IsPlan plan }
    ensures { IfOk result (IsKeptSoFar plan.entry) }
{
    Ok(Kept {
        schedule: begin(alloc, plan.instance)?,
        done: 0,
        windows: 0,
    })
}

// The end of the roll, where all periods are kept.
fn whole(plan: Plan, kept: Kept) -> Rolled
    requires plan { IsPlan plan }
    requires kept { IsKeptSoFar plan kept }
    requires all { plan.instance.now.periods ≤ kept.done }
    ensures { IsRolled plan.entry.options.now.exact_units plan.entry.instance.now plan.entry.options.now.budget plan.entry.options.now.gap plan.entry.window plan.entry.step result }
{
    Rolled::Whole {
        cost: whole_cost(plan.instance, &kept.schedule),
        schedule: kept.schedule,
        windows: kept.windows,
    }
}

// Searches the next window, and keeps the first periods of its schedule. The only error is `NoMemory`.
fn further<R: Threads + Wait + Sync, G: Gate + Sync>(
    rt: &R,
    alloc: Global,
    plan: Plan,
    kept: Kept,
    gate: &G,
) -> Result<Step, NoMemory>
    requires plan { IsPlan plan }
    requires kept { IsKeptSoFar plan kept }
    requires left { kept.done < plan.instance.now.periods }
    ensures { IfOk result (IsStep plan.entry kept.done) }
{
    let place = next_place(plan.instance.periods, kept.done, plan.window, plan.step);
    let found = found_ahead(rt, alloc, plan, &kept, place, gate);
    let (kept, found) = beside(kept, found)?;
    match goes_on(alloc, plan, &kept, place, &found) {
        Some(more) => {
            drop((kept, found));
            further_with(more)
        }
        None => Ok(Step::Ended(stopped(plan, kept, place, found))),
    }
}

// The step to more that is kept. The only error is `NoMemory`.
fn further_with(more: Result<Kept, NoMemory>) -> Result<Step, NoMemory>
    ensures { (plan : Plan) (done : ℕ) → IfOk more (λ more. IsKeptSoFar plan more × (done < more.done)) → IfOk result (IsStep plan done) }
{
    Ok(Step::Further(more?))
}

// What is kept with the first periods of the window's schedule, where one was found.
fn goes_on(
    alloc: Global,
    plan: Plan,
    kept: &Kept,
    place: Place,
    found: &Found,
) -> Option<Result<Kept, NoMemory>>
    requires plan { IsPlan plan }
    requires kept { IsKeptSoFar plan kept.now }
    requires left { kept.now.done < plan.instance.now.periods }
    requires place { IsNextPlace plan.instance.now.periods plan.window plan.step kept.now.done place }
    requires found { IsFoundAhead plan kept.now place found.now }
    ensures more { IfSome result (λ more. IfOk more (λ more. IsKeptSoFar plan.entry more × (kept.now.done < more.done))) }
    ensures none { result ≡ None → found.now.schedule ≡ None }
{
    match &found.schedule {
        Some((shown, _)) => Some(more(alloc, plan, kept, place, shown)),
        None => None,
    }
}

// What the search of the next window finds. The only error is `NoMemory`.
fn found_ahead<R: Threads + Wait + Sync, G: Gate + Sync>(
    rt: &R,
    alloc: Global,
    plan: Plan,
    kept: &Kept,
    place: Place,
    gate: &G,
) -> Result<Found, NoMemory>
    requires plan { IsPlan plan }
    requires kept { IsKeptSoFar plan kept.now }
    requires left { kept.now.done < plan.instance.now.periods }
    requires place { IsNextPlace plan.instance.now.periods plan.window plan.step kept.now.done place }
    ensures { IfOk result (IsFoundAhead plan.entry kept.now place) }
{
    let carried = carry(alloc, plan.instance, &kept.schedule, place.from)?;
    let ahead = window(alloc, plan.instance, &carried, place.from, place.len)?;
    search(rt, alloc, &ahead, plan.options, gate)
}

// What is kept with the first periods of the next window's schedule. The only error is `NoMemory`.
fn more(
    alloc: Global,
    plan: Plan,
    kept: &Kept,
    place: Place,
    shown: &Printed,
) -> Result<Kept, NoMemory>
    requires plan { IsPlan plan }
    requires kept { IsKeptSoFar plan kept.now }
    requires left { kept.now.done < plan.instance.now.periods }
    requires place { IsNextPlace plan.instance.now.periods plan.window plan.step kept.now.done place }
    requires shown { IsShownAhead plan kept.now place shown.now }
    ensures { IfOk result (λ more. IsKeptSoFar plan.entry more × (kept.now.done < more.done)) }
{
    let schedule = stitch(alloc, plan.instance, &kept.schedule, shown, place.keep)?;
    Ok(Kept {
        schedule,
        done: kept.done + place.keep,
        windows: kept.windows + 1,
    })
}

// The end of the roll at a window without a schedule.
fn stopped(plan: Plan, kept: Kept, place: Place, found: Found) -> Rolled
    requires plan { IsPlan plan }
    requires kept { IsKeptSoFar plan kept }
    requires left { kept.done < plan.instance.now.periods }
    requires place { IsNextPlace plan.instance.now.periods plan.window plan.step kept.done place }
    requires found { IsFoundAhead plan kept place found }
    requires none { found.schedule ≡ None }
    ensures { IsRolled plan.entry.options.now.exact_units plan.entry.instance.now plan.entry.options.now.budget plan.entry.options.now.gap plan.entry.window plan.entry.step result }
{
    Rolled::Stopped {
        window: kept.windows + 1,
        from: place.from,
        to: kept.done + place.len,
        kept: kept.schedule,
        found,
    }
}
