//! A run of `solve`.

ghost use Rattle.std.specs.Prelude.{◌≡◌, ◌≤◌, IfOk, IfErr, OnOk, OnErr};
ghost use Rattle.outside.specs.declared.slot.Slot.TheVariants as slot;
ghost use Rattle.outside.specs.declared.slot.Stage.TheVariants.{Unopened};
ghost use Rattle.outside.specs.Prelude.{AllUnopened, SameBut, SinkState};
ghost use Rattle.command_runs.specs.Prelude.{most_bytes, HasCause, IsOpenedByNoOther, IsOnlyRead, outside_of, IsTold, FailsToTell};
ghost use Rattle.report.specs.FoundReport.{found_report};
ghost use Rattle.branch_tree.specs.Prelude.{HasLayout};
ghost use Rattle.uc_cli.specs.inside.Written.{AreWritten, AreUnwritten};
ghost use Rattle.uc_cli.specs.Run.{Slot, solve_options, IsAnswer, IsSolved, IsFailure, KeepsToFiles, IsSolveRun};
ghost use Rattle.command_line.specs.Asked.{solve_asked, HasPrices, HasWorkers};

use branch_tree::Found;
use command_line::Solve;
use command_runs::{End, Failure, ReadOptions, end_of, read_instance, save};
use outside::{Failed, Files, Gate, Sink, Slot};
use report::{Fault, write_found};
use search_machine::limits::MAX_BUDGET;
use std::alloc::Global;
use std::sync::Wait;
use std::thread::Threads;
use uc_model::Instance;
use uc_model::tolerance::WHOLE_GAP;
use workers::{Options, search};

/// What was found for the instance of a file.
#[derive(Drop)]
struct Answer {
    instance: Instance,
    rounded: u64,
    found: Found,
}

// Reads the instance and searches.
fn find<R: Threads + Wait + Sync, F: Files, G: Gate + Sync>(
    rt: &R,
    alloc: Global,
    asked: &Solve,
    files: &mut F,
    gate: &G,
) -> Result<Answer, Fault>
    requires unopened { (F.state files.old Slot.Instance).stage ≡ Unopened }
    requires budget { asked.now.units ≤ MAX_BUDGET }
    requires workers { HasWorkers asked.now.workers }
    requires gap { asked.now.gap ≤ WHOLE_GAP }
    requires prices { HasPrices asked.now.shed asked.now.spill_reserve }
    ensures answer { IfOk result (λ a. IsAnswer (solve_asked asked.now) (F.state files.old slot.Instance) a.instance a.rounded a.found) }
    ensures cause { IfErr result (HasCause (solve_options (solve_asked asked.now)) (F.state files.old slot.Instance) (F.state files.new slot.Instance)) }
    ensures calm { IfOk result (λ _. (F.state files.new slot.Instance).faults ≡ (F.state files.old slot.Instance).faults) }
    ensures named { IsOpenedByNoOther asked.now.instance.now (F.state files.old slot.Instance) (F.state files.new slot.Instance) }
    ensures read { IsOnlyRead most_bytes (F.state files.old slot.Instance) (F.state files.new slot.Instance) }
    ensures others { SameBut slot.Instance (F.state files.old) (F.state files.new) }
{
    let reading = ReadOptions {
        exact: asked.exact,
        shed: asked.shed,
        spill_reserve: asked.spill_reserve,
    };
    let (instance, rounded) = read_instance(alloc, files, asked.instance, reading)?;
    let options = Options {
        budget: asked.units,
        workers: asked.workers,
        gap: asked.gap,
        exact_units: asked.exact_units,
        pivot: asked.pivot,
    };
    let found = search(rt, alloc, &instance, &options, gate)?;
    Ok(Answer {
        instance,
        rounded,
        found,
    })
}

// Writes the report, by the gap in parts per million, and flushes it.
fn tell<O: Sink>(out: &mut O, answer: &Answer, gap: u32) -> Result<(), Failed>
    requires { gap ≤ WHOLE_GAP }
    ensures told { OnOk result (IsTold (found_report answer.now.instance answer.now.found answer.now.rounded gap) (O.state out.old) (O.state out.new)) }
    ensures failed { OnErr result (FailsToTell (found_report answer.now.instance answer.now.found answer.now.rounded gap) (O.state out.old) (O.state out.new)) }
{
    write_found(out, &answer.found, &answer.instance, answer.rounded, gap)?;
    out.flush()
}

// Writes the certificate and then the report.
fn write_both<F: Files, O: Sink>(
    asked: &Solve,
    files: &mut F,
    out: &mut O,
    answer: &Answer,
) -> Result<(), Fault>
    requires unopened { (F.state files.old Slot.CertOut).stage ≡ Unopened }
    requires layout { HasLayout answer.now.found }
    requires gap { asked.now.gap ≤ WHOLE_GAP }
    ensures written { IfOk result (λ _. AreWritten asked.now.gap answer.now.instance answer.now.rounded answer.now.found
        (F.state files.old slot.CertOut) (F.state files.new slot.CertOut) (O.state out.old) (O.state out.new)) }
    ensures unwritten { IfErr result (AreUnwritten asked.now.gap answer.now.instance answer.now.rounded answer.now.found
        (F.state files.old slot.CertOut) (F.state files.new slot.CertOut) (O.state out.old) (O.state out.new)) }
    ensures named { IsOpenedByNoOther asked.now.certificate.now (F.state files.old slot.CertOut) (F.state files.new slot.CertOut) }
    ensures others { SameBut slot.CertOut (F.state files.old) (F.state files.new) }
{
    match save(files, asked.certificate, &answer.found, &answer.instance) {
        Ok(()) => match tell(out, answer, asked.gap) {
            Ok(()) => Ok(()),
            Err(Failed) => Err(Fault::Write { output: true }),
        },
        Err(Failed) => Err(Fault::Write { output: false }),
    }
}

// Reads, searches, writes the certificate and then the report; the error output is as it may be.
fn find_and_write<R: Threads + Wait + Sync, F: Files, O: Sink, G: Gate + Sync>(
    rt: &R,
    alloc: Global,
    asked: &Solve,
    files: &mut F,
    out: &mut O,
    gate: &G,
) -> Result<End, Failure>
    requires unopened { AllUnopened (F.state files.old) }
    requires budget { asked.now.units ≤ MAX_BUDGET }
    requires workers { HasWorkers asked.now.workers }
    requires gap { asked.now.gap ≤ WHOLE_GAP }
    requires prices { HasPrices asked.now.shed asked.now.spill_reserve }
    ensures done { (err_old err_new : SinkState) → IfOk result (IsSolved (solve_asked asked.now)
        (outside_of (F.state files.old) (O.state out.old) err_old) (outside_of (F.state files.new) (O.state out.new) err_new)) }
    ensures failed { (err_old err_new : SinkState) → IfErr result (λ f. IsFailure (solve_asked asked.now)
        (outside_of (F.state files.old) (O.state out.old) err_old) (outside_of (F.state files.new) (O.state out.new) err_new) f.fault f.found) }
    ensures files { (err_old err_new : SinkState) → KeepsToFiles (solve_asked asked.now)
        (outside_of (F.state files.old) (O.state out.old) err_old) (outside_of (F.state files.new) (O.state out.new) err_new) }
{
    let answer = find(rt, alloc, asked, files, gate)?;
    match write_both(asked, files, out, &answer) {
        Ok(()) => Ok(End {
            code: answer.found.status(asked.gap),
            found: Some(answer.found),
            rolled: None,
        }),
        Err(fault) => Err(Failure {
            fault,
            found: Some(answer.found),
        }),
    }
}

/// A run of `solve`: reads, searches, writes the certificate and then the report, or tells a fault.
pub(crate) fn solve<R: Threads + Wait + Sync, F: Files, O: Sink, E: Sink, G: Gate + Sync>(
    rt: &R,
    alloc: Global,
    asked: &Solve,
    files: &mut F,
    out: &mut O,
    err: &mut E,
    gate: &G,
) -> End
    requires unopened { AllUnopened (F.state files.old) }
    requires budget { asked.now.units ≤ MAX_BUDGET }
    requires workers { HasWorkers asked.now.workers }
    requires gap { asked.now.gap ≤ WHOLE_GAP }
    requires prices { HasPrices asked.now.shed asked.now.spill_reserve }
    ensures { IsSolveRun (solve_asked asked.now) (outside_of (F.state files.old) (O.state out.old) (E.state err.old))
        (outside_of (F.state files.new) (O.state out.new) (E.state err.new)) result }
{
    let outcome = find_and_write(rt, alloc, asked, files, out, gate);
    end_of(err, outcome)
}
