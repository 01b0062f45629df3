//! A run of `demo`.

ghost use Rattle.std.specs.Prelude.{◌≡◌, IfOk, IfErr, OnOk, OnErr};
ghost use Rattle.outside.specs.declared.slot.Slot.{Slot};
ghost use Rattle.outside.specs.Prelude.{SlotState};
ghost use Rattle.report.specs.DemoReport.{demo_report};
ghost use Rattle.command_runs.specs.Prelude.{outside_of, IsTold, FailsToTell};
ghost use Rattle.uc_cli.specs.DemoRun.{IsDemoAnswer, IsDemoAnswered, IsDemoFailure, IsDemoRun};
ghost use Rattle.command_line.specs.Asked.{demo_asked};

use branch_tree::Found;
use command_line::Demo;
use command_runs::{End, Failure, end_of};
use outside::{Failed, Gate, Sink};
use report::{DEMO_GAP, Fault, write_demo};
use std::alloc::Global;
use std::sync::Wait;
use std::thread::Threads;
use workers::{Options, search};

/// The budget of a demo, in claims.
const BUDGET: u32 = 200;

// Searches the instance of the seed.
fn find<R: Threads + Wait + Sync, G: Gate + Sync>(
    rt: &R,
    alloc: Global,
    seed: u32,
    gate: &G,
) -> Result<Found, Fault>
    ensures answer { IfOk result (IsDemoAnswer seed) }
    ensures memory { IfErr result (λ fault. fault ≡ Fault.Memory) }
{
    let instance = demo_gen::instance(alloc, seed)?;
    let options = Options {
        budget: BUDGET,
        workers: 1,
        gap: DEMO_GAP,
        exact_units: false,
        pivot: false,
    };
    let found = search(rt, alloc, &instance, &options, gate)?;
    Ok(found)
}

// Writes the report, and flushes it.
fn tell_found<O: Sink>(out: &mut O, seed: u32, found: &Found) -> Result<(), Failed>
    ensures told { OnOk result (IsTold (demo_report seed found.now) (O.state out.old) (O.state out.new)) }
    ensures failed { OnErr result (FailsToTell (demo_report seed found.now) (O.state out.old) (O.state out.new)) }
{
    write_demo(out, seed, found)?;
    out.flush()
}

// Searches and writes the report.
fn find_and_tell<R: Threads + Wait + Sync, O: Sink, G: Gate + Sync>(
    rt: &R,
    alloc: Global,
    asked: &Demo,
    out: &mut O,
    gate: &G,
) -> Result<End, Failure>
    ensures done { IfOk result (IsDemoAnswered (demo_asked asked.now) (O.state out.old) (O.state out.new)) }
    ensures failed { IfErr result (λ f. IsDemoFailure (demo_asked asked.now) (O.state out.old) (O.state out.new) f.fault f.found) }
{
    let found = find(rt, alloc, asked.seed, gate)?;
    match tell_found(out, asked.seed, &found) {
        Ok(()) => Ok(End {
            code: found.status(DEMO_GAP),
            found: Some(found),
            rolled: None,
        }),
        Err(Failed) => Err(Failure {
            fault: Fault::Write { output: true },
            found: Some(found),
        }),
    }
}

/// A run of `demo`: searches the instance of the seed by one worker and reports what was found, or tells a fault. It touches no file,
/// whatever the files are.
pub(crate) fn demo<R: Threads + Wait + Sync, O: Sink, E: Sink, G: Gate + Sync>(
    rt: &R,
    alloc: Global,
    asked: &Demo,
    out: &mut O,
    err: &mut E,
    gate: &G,
) -> End
    ensures { (files : Slot → SlotState) → IsDemoRun (demo_asked asked.now) (outside_of files (O.state out.old) (E.state err.old))
        (outside_of files (O.state out.new) (E.state err.new)) result }
{
    let outcome = find_and_tell(rt, alloc, asked, out, gate);
    end_of(err, outcome)
}
