//! The run of a commitment: its periods one after another, filled again from another commitment's where there is one.

ghost use Rattle.std.specs.Prelude.{◌≡◌, ◌<◌, ◌≤◌, [], IfOk, MatchOption, length, IfSome, None};
ghost use Rattle.uc_model.specs.Prelude.{IsLawfulInstance, thermal_count};
ghost use Rattle.dispatch_repair.specs.Prelude.{next_period, IsRoomOf, source_count, IsFirstObstacle};
ghost use Rattle.decommitment.specs.inside.Fills.{HasEntered, IsFill, IsFillingOf};
ghost use Rattle.decommitment.specs.inside.Runs.{AreFills, AreInitial, IsEdge, IsNext, IsOrigin, IsReach, IsSetting, IsStoodAt, instance_of, order_of, outputs_before};

use crate::fill::{Base, Fill, Filling, Hour, System, fill_again, fill_anew, no_fill};
use dispatch_repair::{Room, dispatch_after, set_initial};
use std::alloc::Global;
use uc_model::{Instance, NoMemory, Pattern, Why};

/// What the runs of an instance share: with what periods are filled, and what the sources give before the first one, in watts by their
/// places.
#[derive(Clone, Copy)]
pub(crate) struct Setting<'a> {
    pub system: &'a System<'a>,
    pub start: &'a [i64],
}

/// The run of a commitment: its periods from the first on, as far as they can be filled; what each thermal unit costs, in
/// micro-dollars, where all are; the fill of the period behind, where all units entered that one; fills that are free; and room for the
/// dispatch of a period in which a limit binds.
#[derive(Drop)]
pub(crate) struct Run {
    pub fills: Vec<Fill>,
    pub edge: Option<Fill>,
    pub costs: Vec<i128>,
    pub spare: Vec<Fill>,
    pub room: Room,
}

/// How far a run came: through all periods; or to one, from 0, that can't be filled.
#[derive(Clone, Copy)]
pub(crate) enum Reach {
    Through,
    Stuck(usize),
}

/// The run of a commitment in which unit g, from 0, has the pattern that stood.
#[derive(Clone, Copy)]
pub(crate) struct Origin<'a> {
    pub run: &'a Run,
    pub g: usize,
    pub stood: Pattern,
}

/// A run of no period. The only error is `NoMemory`.
pub(crate) fn no_run(alloc: Global, instance: &Instance) -> Result<Run, NoMemory>
    requires lawful { IsLawfulInstance instance.now }
    ensures fills { IfOk result (λ run. run.fills.items ≡ []) }
    ensures edge { IfOk result (λ run. run.edge ≡ None) }
    ensures costs { IfOk result (λ run. length run.costs.items ≡ thermal_count instance.now) }
    ensures room { IfOk result (λ run. IsRoomOf instance.now run.room) }
{
    Ok(Run {
        fills: Vec::new(alloc),
        edge: None,
        costs: vec![in alloc; 0; instance.thermal.as_slice().len()]?,
        spare: Vec::new(alloc),
        room: Room::new(alloc, instance)?,
    })
}

/// What the sources give before the first period, in watts by their places. The only error is `NoMemory`.
pub(crate) fn initial_outputs(alloc: Global, instance: &Instance) -> Result<Vec<i64>, NoMemory>
    requires lawful { IsLawfulInstance instance.now }
    ensures { IfOk result (λ start. AreInitial instance.now start.items) }
{
    let sources = instance.renewable.as_slice().len() + instance.thermal.as_slice().len();
    let mut start = vec![in alloc; 0; sources]?;
    set_initial(&mut start, instance);
    Ok(start)
}

/// Fills the periods of a commitment from the first on, each again where the origin's run has it. The only error is `NoMemory`.
pub(crate) fn fill_periods(
    alloc: Global,
    setting: &Setting,
    patterns: &[Pattern],
    origin: &Origin,
    run: &mut Run,
) -> Result<Reach, NoMemory>
    requires setting { IsSetting setting.now }
    requires patterns { length patterns.now ≡ thermal_count (instance_of setting.now) }
    requires origin { IsOrigin (instance_of setting.now) (order_of setting.now) patterns.now setting.now.start.now
        origin.now.run.now origin.now.g origin.now.stood }
    requires room { IsRoomOf (instance_of setting.now) run.old.room }
    ensures costs { run.new.costs ≡ run.old.costs }
    ensures room { IsRoomOf (instance_of setting.now) run.new.room }
    ensures fills { IfOk result (λ reach. AreFills (instance_of setting.now) (order_of setting.now) patterns.now
        setting.now.start.now run.new.fills.items) }
    ensures edge { IfOk result (λ reach. IfSome run.new.edge (HasEntered (instance_of setting.now) (order_of setting.now) patterns.now
        (length run.new.fills.items) (outputs_before setting.now.start.now run.new.fills.items (length run.new.fills.items)))) }
    ensures reach { IfOk result (IsReach (instance_of setting.now) patterns.now setting.now.start.now run.new.fills.items) }
{
    release(run)?;
    for t in 0..setting.system.instance.periods as usize {
        if !fill_period(alloc, setting, patterns, origin, run)? {
            return Ok(Reach::Stuck(t));
        }
    }
    Ok(Reach::Through)
}

// Fills the period after the last one, where it can be filled, and says whether it can.
fn fill_period(
    alloc: Global,
    setting: &Setting,
    patterns: &[Pattern],
    origin: &Origin,
    run: &mut Run,
) -> Result<bool, NoMemory>
    requires setting { IsSetting setting.now }
    requires patterns { length patterns.now ≡ thermal_count (instance_of setting.now) }
    requires origin { IsOrigin (instance_of setting.now) (order_of setting.now) patterns.now setting.now.start.now
        origin.now.run.now origin.now.g origin.now.stood }
    requires room { IsRoomOf (instance_of setting.now) run.old.room }
    requires fills { AreFills (instance_of setting.now) (order_of setting.now) patterns.now setting.now.start.now run.old.fills.items }
    requires edge { run.old.edge ≡ None }
    requires period { length run.old.fills.items < (instance_of setting.now).periods }
    ensures costs { run.new.costs ≡ run.old.costs }
    ensures room { IsRoomOf (instance_of setting.now) run.new.room }
    ensures fills { IfOk result (λ filled. AreFills (instance_of setting.now) (order_of setting.now) patterns.now
        setting.now.start.now run.new.fills.items) }
    ensures edge { IfOk result (IsEdge (instance_of setting.now) (order_of setting.now) patterns.now setting.now.start.now run.new) }
    ensures next { IfOk result (IsNext (instance_of setting.now) patterns.now setting.now.start.now run.old.fills.items
        run.new.fills.items) }
{
    let mut fill = take_spare(alloc, &mut run.spare, setting.start.len())?;
    match fill_next(setting, patterns, origin, &run.fills, &mut fill) {
        Filling::Filled => {
            run.fills.push(fill)?;
            Ok(true)
        }
        Filling::Barred(_) => {
            run.spare.push(fill)?;
            Ok(false)
        }
        Filling::Uneven(_) => {
            run.edge = Some(fill);
            Ok(false)
        }
        Filling::Bound => match fill_bound(
            setting,
            patterns,
            &run.fills,
            &mut run.room,
            &mut fill,
        ) {
            None => {
                run.fills.push(fill)?;
                Ok(true)
            }
            Some(_) => {
                run.spare.push(fill)?;
                Ok(false)
            }
        },
    }
}

// Makes the fills of a run free.
fn release(run: &mut Run) -> Result<(), NoMemory>
    ensures costs { run.new.costs ≡ run.old.costs }
    ensures fills { IfOk result (λ done. run.new.fills.items ≡ []) }
    ensures edge { IfOk result (λ done. run.new.edge ≡ None) }
    ensures room { run.new.room ≡ run.old.room }
{
    for _ in 0..run.fills.len() {
        if let Some(fill) = run.fills.pop() {
            run.spare.push(fill)?;
        }
    }
    run.fills.clear();
    run.edge = None;
    Ok(())
}

// A fill that is free, or a new one; it is a base unless a limit is found to bind.
fn take_spare(alloc: Global, spare: &mut Vec<Fill>, sources: usize) -> Result<Fill, NoMemory>
    ensures { IfOk result (λ fill. length fill.amounts.items ≡ sources) }
{
    if let Some(mut fill) = spare.pop() {
        if fill.amounts.len() == sources {
            fill.is_base = true;
            return Ok(fill);
        }
    }
    no_fill(alloc, sources)
}

// Fills the period after the last one.
fn fill_next(
    setting: &Setting,
    patterns: &[Pattern],
    origin: &Origin,
    fills: &[Fill],
    fill: &mut Fill,
) -> Filling
    requires setting { IsSetting setting.now }
    requires patterns { length patterns.now ≡ thermal_count (instance_of setting.now) }
    requires origin { IsOrigin (instance_of setting.now) (order_of setting.now) patterns.now setting.now.start.now
        origin.now.run.now origin.now.g origin.now.stood }
    requires fills { AreFills (instance_of setting.now) (order_of setting.now) patterns.now setting.now.start.now fills.now }
    requires period { length fills.now < (instance_of setting.now).periods }
    requires amounts { length fill.old.amounts.items ≡ source_count (instance_of setting.now) }
    ensures amounts { length fill.new.amounts.items ≡ source_count (instance_of setting.now) }
    ensures filling { IsFillingOf (instance_of setting.now) (order_of setting.now) patterns.now (length fills.now)
        (outputs_before setting.now.start.now fills.now (length fills.now)) fill.new result }
{
    let t = fills.len();
    let before = given_before(setting.start, fills, t);
    let hour = Hour {
        patterns,
        t,
        before,
    };
    match stood_at(origin.run, t) {
        Some(stood) => {
            let base = Base {
                before: given_before(setting.start, origin.run.fills.as_slice(), t),
                fill: stood,
                g: origin.g,
                stood: origin.stood,
            };
            fill_again(setting.system, &hour, &base, fill)
        }
        None => fill_anew(setting.system, &hour, fill),
    }
}

// Fills the period after the last one, in which the thermal units' limit binds, as in a dispatch; or says why it can't be filled.
fn fill_bound(
    setting: &Setting,
    patterns: &[Pattern],
    fills: &[Fill],
    room: &mut Room,
    fill: &mut Fill,
) -> Option<Why>
    requires setting { IsSetting setting.now }
    requires patterns { length patterns.now ≡ thermal_count (instance_of setting.now) }
    requires fills { AreFills (instance_of setting.now) (order_of setting.now) patterns.now setting.now.start.now fills.now }
    requires period { length fills.now < (instance_of setting.now).periods }
    requires room { IsRoomOf (instance_of setting.now) room.old }
    requires amounts { length fill.old.amounts.items ≡ source_count (instance_of setting.now) }
    ensures room { IsRoomOf (instance_of setting.now) room.new }
    ensures filled { let before = outputs_before setting.now.start.now fills.now (length fills.now) in
        MatchOption result (IsFill (instance_of setting.now) (order_of setting.now) patterns.now (length fills.now) before fill.new)
        (IsFirstObstacle (next_period (instance_of setting.now) patterns.now (length fills.now) before)) }
{
    let t = fills.len();
    let before = given_before(setting.start, fills, t);
    fill.amounts.copy_from_slice(before);
    fill.is_base = false;
    match dispatch_after(
        room,
        setting.system.instance,
        patterns,
        t,
        &mut fill.amounts,
    ) {
        Ok(shortage) => {
            fill.shortage = shortage;
            None
        }
        Err(why) => Some(why),
    }
}

// A run's fill of period t, which was filled and is a base, or which all units entered.
fn stood_at(run: &Run, t: usize) -> Option<&Fill>
    ensures { IfSome result (λ fill. IsStoodAt run.now t fill.now) }
{
    if t < run.fills.len() {
        let fill = &run.fills[t];
        return if fill.is_base { Some(fill) } else { None };
    }
    if t == run.fills.len() {
        return match &run.edge {
            Some(fill) => Some(fill),
            None => None,
        };
    }
    None
}

// What the sources give before period t.
fn given_before<'a>(start: &'a [i64], fills: &'a [Fill], t: usize) -> &'a [i64]
    requires { t ≤ length fills.now }
    ensures { result.now ≡ outputs_before start.now fills.now t }
{
    if t == 0 {
        start
    } else {
        fills[t - 1].amounts.as_slice()
    }
}
