//! A run of `roll`.

ghost use Rattle.std.specs.Prelude.{◌≡◌, IfOk, IfErr, OnOk, OnErr};
ghost use Rattle.outside.specs.declared.slot.Slot.TheVariants as slot;
ghost use Rattle.outside.specs.declared.slot.Stage.TheVariants.{Unopened};
ghost use Rattle.outside.specs.Prelude.{AllUnopened, SameBut, SinkState};
ghost use Rattle.command_runs.specs.Prelude.{most_bytes, HasCause, IsOpenedByNoOther, IsOnlyRead, outside_of, IsTold, FailsToTell};
ghost use Rattle.report.specs.RolledReport.{rolled_report};
ghost use Rattle.uc_cli.specs.RollRun.{Slot, roll_options, IsRollAnswer, IsRollDone, IsRollFailure, KeepsToInstance, IsRollRun};
ghost use Rattle.uc_cli.specs.inside.Rolls.{IsToldRoll, IsUntoldRoll, IsFaultEnd};
ghost use Rattle.command_line.specs.Asked.{roll_asked, HasNumbers};
ghost use Rattle.command_line.specs.declared.command.Command.TheVariants as forms;

use command_line::Roll;
use command_runs::{End, ReadOptions, read_instance, tell_fault};
use outside::{Failed, Files, Gate, Sink};
use report::{Fault, write_rolled};
use std::alloc::Global;
use std::sync::Wait;
use std::thread::Threads;
use uc_model::Instance;
use workers::{Options, Rolled, roll};

/// What came of the windows of the instance of a file.
#[derive(Drop)]
struct Answer {
    instance: Instance,
    rounded: u64,
    rolled: Rolled,
}

/// A fault that ends a run, and what came of the windows before it.
#[derive(Drop)]
struct Failure {
    fault: Fault,
    rolled: Option<Rolled>,
}

// Reads the instance and rolls it.
fn find<R: Threads + Wait + Sync, F: Files, G: Gate + Sync>(
    rt: &R,
    alloc: Global,
    asked: &Roll,
    files: &mut F,
    gate: &G,
) -> Result<Answer, Fault>
    requires unopened { (F.state files.old Slot.Instance).stage ≡ Unopened }
    requires numbers { HasNumbers (forms.Roll asked.now) }
    ensures answer { IfOk result (λ a. IsRollAnswer (roll_asked asked.now) (F.state files.old slot.Instance) a.instance a.rounded a.rolled) }
    ensures cause { IfErr result (HasCause (roll_options (roll_asked asked.now)) (F.state files.old slot.Instance) (F.state files.new slot.Instance)) }
    ensures calm { IfOk result (λ _. (F.state files.new slot.Instance).faults ≡ (F.state files.old slot.Instance).faults) }
    ensures named { IsOpenedByNoOther asked.now.instance.now (F.state files.old slot.Instance) (F.state files.new slot.Instance) }
    ensures read { IsOnlyRead most_bytes (F.state files.old slot.Instance) (F.state files.new slot.Instance) }
    ensures others { SameBut slot.Instance (F.state files.old) (F.state files.new) }
{
    let reading = ReadOptions {
        exact: asked.exact,
        shed: asked.shed,
        spill_reserve: asked.spill_reserve,
    };
    let (instance, rounded) = read_instance(alloc, files, asked.instance, reading)?;
    let options = Options {
        budget: asked.units,
        workers: asked.workers,
        gap: asked.gap,
        exact_units: false,
        pivot: false,
    };
    let rolled = roll(
        rt,
        alloc,
        &instance,
        &options,
        asked.window,
        asked.step,
        gate,
    )?;
    Ok(Answer {
        instance,
        rounded,
        rolled,
    })
}

// Writes the report, and flushes it.
fn tell<O: Sink>(out: &mut O, answer: &Answer) -> Result<(), Failed>
    ensures told { OnOk result (IsTold (rolled_report answer.now.instance answer.now.rolled answer.now.rounded) (O.state out.old) (O.state out.new)) }
    ensures failed { OnErr result (FailsToTell (rolled_report answer.now.instance answer.now.rolled answer.now.rounded) (O.state out.old) (O.state out.new)) }
{
    write_rolled(out, &answer.rolled, &answer.instance, answer.rounded)?;
    out.flush()
}

// What the run comes to, once the report is written.
fn told<O: Sink>(out: &mut O, answer: Answer) -> Result<Rolled, Failure>
    ensures told { IfOk result (IsToldRoll answer.instance answer.rounded answer.rolled (O.state out.old) (O.state out.new)) }
    ensures untold { IfErr result (λ f. IsUntoldRoll answer.instance answer.rounded answer.rolled (O.state out.old) (O.state out.new)
        f.fault f.rolled) }
{
    match tell(out, &answer) {
        Ok(()) => Ok(answer.rolled),
        Err(Failed) => Err(Failure {
            fault: Fault::Write { output: true },
            rolled: Some(answer.rolled),
        }),
    }
}

// Reads, rolls and writes the report; the error output is as it may be.
fn find_and_tell<R: Threads + Wait + Sync, F: Files, O: Sink, G: Gate + Sync>(
    rt: &R,
    alloc: Global,
    asked: &Roll,
    files: &mut F,
    out: &mut O,
    gate: &G,
) -> Result<Rolled, Failure>
    requires unopened { AllUnopened (F.state files.old) }
    requires numbers { HasNumbers (forms.Roll asked.now) }
    ensures done { (err_old err_new : SinkState) → IfOk result (IsRollDone (roll_asked asked.now)
        (outside_of (F.state files.old) (O.state out.old) err_old) (outside_of (F.state files.new) (O.state out.new) err_new)) }
    ensures failed { (err_old err_new : SinkState) → IfErr result (λ f. IsRollFailure (roll_asked asked.now)
        (outside_of (F.state files.old) (O.state out.old) err_old) (outside_of (F.state files.new) (O.state out.new) err_new) f.fault f.rolled) }
    ensures files { (err_old err_new : SinkState) → KeepsToInstance (roll_asked asked.now)
        (outside_of (F.state files.old) (O.state out.old) err_old) (outside_of (F.state files.new) (O.state out.new) err_new) }
{
    match find(rt, alloc, asked, files, gate) {
        Ok(answer) => told(out, answer),
        Err(fault) => Err(Failure {
            fault,
            rolled: None,
        }),
    }
}

// The end of a run by a fault, which is told.
fn faulty<E: Sink>(err: &mut E, failure: Failure) -> End
    ensures { IsFaultEnd failure.fault failure.rolled (E.state err.old) (E.state err.new) result }
{
    tell_fault(err, &failure.fault);
    End {
        code: failure.fault.code(),
        found: None,
        rolled: failure.rolled,
    }
}

/// A run of `roll`: reads the instance, rolls it and writes the report, or tells a fault.
pub(crate) fn roll_windows<R: Threads + Wait + Sync, F: Files, O: Sink, E: Sink, G: Gate + Sync>(
    rt: &R,
    alloc: Global,
    asked: &Roll,
    files: &mut F,
    out: &mut O,
    err: &mut E,
    gate: &G,
) -> End
    requires unopened { AllUnopened (F.state files.old) }
    requires numbers { HasNumbers (forms.Roll asked.now) }
    ensures { IsRollRun (roll_asked asked.now) (outside_of (F.state files.old) (O.state out.old) (E.state err.old))
        (outside_of (F.state files.new) (O.state out.new) (E.state err.new)) result }
{
    match find_and_tell(rt, alloc, asked, files, out, gate) {
        Ok(rolled) => End {
            code: rolled.status(),
            found: None,
            rolled: Some(rolled),
        },
        Err(failure) => faulty(err, failure),
    }
}
