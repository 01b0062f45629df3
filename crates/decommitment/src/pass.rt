//! The drop pass: from the most-on commitment to one of fewer on periods, unit by unit, where the dispatch is better for it.

ghost use Rattle.std.specs.Prelude.{◌≡◌, ◌<◌, List, ℤ, IfOk, length, suc};
ghost use Rattle.uc_model.specs.Prelude.{IsLawfulInstance, thermal_count};
ghost use Rattle.dispatch_repair.specs.Prelude.{AreMostOn, IsRoomOf, IsDispatchOf, IsStuckOf};
ghost use Rattle.dispatch_repair.specs.declared.segment.Segment.{Segment};
ghost use Rattle.decommitment.specs.DropCommitment.{Instance, IsStuckIn, Printed};
ghost use Rattle.dual_model.specs.Prelude.{HasEachPattern};
ghost use Rattle.decommitment.specs.Standings.{IsDropped};
ghost use Rattle.decommitment.specs.inside.Runs.{IsOrigin, IsRun, IsRunPass, IsSetting, IsStandOf, IsTrialOf, IsTriedRun, instance_of, order_of};
ghost use Rattle.decommitment.specs.inside.Turns.{AreAllowed};

use crate::fill::System;
use crate::merit::merit_of;
use crate::patterns::{fewest, most_on_patterns};
use crate::price::{Changed, price};
use crate::run::{Origin, Reach, Run, Setting, fill_periods, initial_outputs, no_run};
use crate::stand::{Stand, Trial, Turn, is_better, replace};
use dispatch_repair::{DispatchFault, dispatch};
use schedule_check::cost;
use std::alloc::Global;
use std::mem;
use uc_model::{Instance, NoMemory, Pattern, Printed, Stuck};

/// How the best commitment so far was dispatched: with a schedule and its cost in micro-dollars; or stuck in `period`, from 0, as
/// the most-on commitment also was, at `most_on`.
#[derive(Debug, Drop)]
pub enum Standing {
    Dispatched { printed: Printed, cost: i64 },
    Stuck { period: usize, most_on: Stuck },
}

// The commitment that is kept, with its run, and memory for the next trial's.
#[derive(Drop)]
struct Pass {
    patterns: Vec<Pattern>,
    best: Run,
    tried: Run,
    stand: Stand,
}

/// Where the drop pass ends. The only error is `NoMemory`.
pub fn drop_pass(alloc: Global, instance: &Instance) -> Result<Standing, NoMemory>
    requires lawful { IsLawfulInstance instance.now }
    requires patterns { HasEachPattern instance.now }
    ensures { IfOk result (IsDropped instance.now) }
{
    let merit = merit_of(alloc, instance)?;
    let start = initial_outputs(alloc, instance)?;
    let system = System {
        instance,
        merit: &merit,
    };
    let setting = Setting {
        system: &system,
        start: start.as_slice(),
    };
    let mut pass = begun(alloc, &setting)?;
    turns(alloc, &mut pass, &setting)?;
    ended(alloc, instance, pass)
}

// The turns of all units.
fn turns(alloc: Global, pass: &mut Pass, setting: &Setting) -> Result<(), NoMemory>
    requires setting { IsSetting setting.now }
    requires each { HasEachPattern (instance_of setting.now) }
    requires begun { IsRunPass (instance_of setting.now) (order_of setting.now) setting.now.start.now 0 pass.old }
    ensures { IfOk result (λ done. IsRunPass (instance_of setting.now) (order_of setting.now) setting.now.start.now
        (thermal_count (instance_of setting.now)) pass.new) }
{
    for g in 0..setting.system.instance.thermal.as_slice().len() {
        take_turn(alloc, pass, setting, g)?;
    }
    Ok(())
}

// The most-on commitment, with its run.
fn begun(alloc: Global, setting: &Setting) -> Result<Pass, NoMemory>
    requires setting { IsSetting setting.now }
    requires each { HasEachPattern (instance_of setting.now) }
    ensures { IfOk result (IsRunPass (instance_of setting.now) (order_of setting.now) setting.now.start.now 0) }
{
    let instance = setting.system.instance;
    let patterns = most_on_patterns(alloc, instance)?;
    let mut best = no_run(alloc, instance)?;
    let tried = no_run(alloc, instance)?;
    let origin = Origin {
        run: &tried,
        g: 0,
        stood: Pattern::all_off(),
    };
    let trial = attempt(alloc, setting, &patterns, &origin, &mut best)?;
    let stand = first_stand(alloc, instance, &patterns, trial)?;
    Ok(Pass {
        patterns,
        best,
        tried,
        stand,
    })
}

// How the most-on commitment, of which this is the trial, is dispatched.
fn first_stand(
    alloc: Global,
    instance: &Instance,
    patterns: &[Pattern],
    trial: Trial,
) -> Result<Stand, NoMemory>
    requires lawful { IsLawfulInstance instance.now }
    requires most_on { AreMostOn instance.now patterns.now }
    requires trial { IsTrialOf instance.now patterns.now trial }
    ensures { IfOk result (IsStandOf instance.now patterns.now) }
{
    match trial {
        Trial::Dispatched(cost) => Ok(Stand::Dispatched(cost)),
        Trial::Stuck(period) => Ok(Stand::Stuck {
            period,
            most_on: where_stuck(alloc, instance, patterns, period)?,
        }),
    }
}

// Where and why a commitment is stuck that is so in a period.
fn where_stuck(
    alloc: Global,
    instance: &Instance,
    patterns: &[Pattern],
    period: usize,
) -> Result<Stuck, NoMemory>
    requires lawful { IsLawfulInstance instance.now }
    requires patterns { length patterns.now ≡ thermal_count instance.now }
    requires stuck { IsStuckIn instance.now patterns.now period }
    ensures { IfOk result (IsStuckOf instance.now patterns.now) }
{
    match dispatch(alloc, instance, patterns) {
        Ok(_) => unreachable!(),
        Err(DispatchFault::Stuck(stuck)) => Ok(stuck),
        Err(DispatchFault::NoMemory) => Err(NoMemory),
    }
}

// The turn of unit g: its pattern with the fewest on periods is tried, and kept where the dispatch is better.
fn take_turn(alloc: Global, pass: &mut Pass, setting: &Setting, g: usize) -> Result<(), NoMemory>
    requires setting { IsSetting setting.now }
    requires each { HasEachPattern (instance_of setting.now) }
    requires unit { g < thermal_count (instance_of setting.now) }
    requires passed { IsRunPass (instance_of setting.now) (order_of setting.now) setting.now.start.now g pass.old }
    ensures { IfOk result (λ done. IsRunPass (instance_of setting.now) (order_of setting.now) setting.now.start.now
        (suc g) pass.new) }
{
    let fewest = fewest(setting.system.instance, g);
    let stood = pass.patterns[g];
    if fewest == stood {
        return Ok(());
    }
    pass.patterns[g] = fewest;
    let origin = Origin {
        run: &pass.best,
        g,
        stood,
    };
    let trial = attempt(alloc, setting, &pass.patterns, &origin, &mut pass.tried)?;
    choose(pass, Turn { g, stood, trial });
    Ok(())
}

// Runs through a commitment that differs from the origin's in its unit alone.
fn attempt(
    alloc: Global,
    setting: &Setting,
    patterns: &[Pattern],
    origin: &Origin,
    run: &mut Run,
) -> Result<Trial, NoMemory>
    requires setting { IsSetting setting.now }
    requires patterns { length patterns.now ≡ thermal_count (instance_of setting.now) }
    requires allowed { AreAllowed (instance_of setting.now) patterns.now }
    requires origin { IsOrigin (instance_of setting.now) (order_of setting.now) patterns.now setting.now.start.now
        origin.now.run.now origin.now.g origin.now.stood }
    requires costs { length run.old.costs.items ≡ thermal_count (instance_of setting.now) }
    requires room { IsRoomOf (instance_of setting.now) run.old.room }
    ensures run { IfOk result (λ trial. IsRun (instance_of setting.now) (order_of setting.now) patterns.now
        setting.now.start.now run.new) }
    ensures trial { IfOk result (IsTrialOf (instance_of setting.now) patterns.now) }
{
    match fill_periods(alloc, setting, patterns, origin, run)? {
        Reach::Through => {
            let changed = Changed {
                instance: setting.system.instance,
                patterns,
                origin,
                fills: run.fills.as_slice(),
            };
            Ok(Trial::Dispatched(price(alloc, &changed, &mut run.costs)?))
        }
        Reach::Stuck(t) => Ok(Trial::Stuck(t)),
    }
}

// Keeps the trial where it is better, and else puts back the pattern that stood.
fn choose(pass: &mut Pass, turn: Turn)
    requires unit { turn.g < length pass.old.patterns.items }
    ensures { (instance : Instance) (order : List Segment) (start : List ℤ) → IsTriedRun instance order start turn pass.old
        → IsRunPass instance order start (suc turn.g) pass.new }
{
    if is_better(&turn.trial, &pass.stand) {
        mem::swap(&mut pass.best, &mut pass.tried);
        replace(&mut pass.stand, turn.trial);
    } else {
        pass.patterns[turn.g] = turn.stood;
    }
}

// Where the pass ends: the commitment that is kept is dispatched.
fn ended(alloc: Global, instance: &Instance, pass: Pass) -> Result<Standing, NoMemory>
    requires lawful { IsLawfulInstance instance.now }
    requires passed { (order : List Segment) × (start : List ℤ) × IsRunPass instance.now order start (thermal_count instance.now) pass }
    ensures { IfOk result (IsDropped instance.now) }
{
    let Pass {
        patterns,
        stand,
        ..
    } = pass;
    match stand {
        Stand::Dispatched(_) => {
            let printed = whole(alloc, instance, &patterns)?;
            let cost = cost(instance, &printed);
            Ok(Standing::Dispatched { printed, cost })
        }
        Stand::Stuck { period, most_on } => Ok(Standing::Stuck { period, most_on }),
    }
}

// The dispatch of a commitment that has one.
fn whole(alloc: Global, instance: &Instance, patterns: &[Pattern]) -> Result<Printed, NoMemory>
    requires lawful { IsLawfulInstance instance.now }
    requires patterns { length patterns.now ≡ thermal_count instance.now }
    requires dispatched { (printed : Printed) × IsDispatchOf instance.now patterns.now printed }
    ensures { IfOk result (IsDispatchOf instance.now patterns.now) }
{
    match dispatch(alloc, instance, patterns) {
        Ok(printed) => Ok(printed),
        Err(DispatchFault::Stuck(_)) => unreachable!(),
        Err(DispatchFault::NoMemory) => Err(NoMemory),
    }
}
