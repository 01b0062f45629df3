//! A run of `uplift`.

ghost use Rattle.std.specs.Prelude.{◌≡◌, ℕ, List, IfOk, IfErr, OnOk, OnErr};
ghost use Rattle.outside.specs.Prelude.{AllUnopened, SlotState, SinkState};
ghost use Rattle.outside.specs.declared.slot.Slot.{Slot};
ghost use Rattle.branch_tree.specs.Prelude.{written_of};
ghost use Rattle.uplift.specs.Uplift.{AreUplifts};
ghost use Rattle.report.specs.UpliftReport.{uplift_report};
ghost use Rattle.command_line.specs.Asked.{uplift_asked, HasPrices};
ghost use Rattle.command_line.specs.Command.{Check};
ghost use Rattle.command_runs.specs.Prelude.{outside_of, IsTold, FailsToTell};
ghost use Rattle.uc_check.specs.Checking.{KeepsToInput};
ghost use Rattle.uc_check.specs.Checks.{IsChecked};
ghost use Rattle.uc_uplift.specs.Uplifting.{Table as TableNumbers, Printed as PrintedNumbers, table_of as table_of_number, told_numbers, HasNoUplifts, IsPriceTable, IsWholeSchedule, IsUplifting, IsUpliftFailure, IsUpliftRun};
ghost use Rattle.uc_uplift.specs.inside.Picks.{ArePicked, IsUnpicked, IsUplifted, MayHaveUplifts};

use cert_text::Cert;
use command_line::Uplift;
use command_runs::{End, Failure, end_of, end_of_report};
use dual_model::Table;
use outside::{Failed, Files, Sink};
use report::{Fault, UpliftNumbers, UpliftRefusal, write_uplift};
use std::alloc::Global;
use table_list::TableList;
use uc_check::verify::{Checked, verify};
use uc_model::{Instance, NoMemory, Printed};
use uplift::Uplifts;

// The schedule that is written, where its watts are whole.
fn whole_schedule(schedule: &Option<(Printed, i128)>) -> Result<&Printed, UpliftRefusal>
    ensures whole { IfOk result (λ printed. IsWholeSchedule (written_of schedule.now) printed.now) }
    ensures refused { IfErr result (λ refusal. (tables : List TableNumbers) (number : ℕ) → HasNoUplifts (written_of schedule.now) tables number refusal) }
{
    match schedule {
        Some((printed, _)) => {
            if printed.denominator > 1 {
                Err(UpliftRefusal::Fractions)
            } else {
                Ok(printed)
            }
        }
        None => Err(UpliftRefusal::NoSchedule),
    }
}

// The table of this number, from 1, where there is one.
fn table_of(alloc: Global, tables: &TableList, number: u32) -> Result<Option<Table>, NoMemory>
    ensures { IfOk result (λ table. table ≡ table_of_number tables.now number) }
{
    let place = number as usize;
    if place == 0 {
        return Ok(None);
    }
    if place > tables.len() {
        return Ok(None);
    }
    Ok(Some(tables.table(alloc, place - 1)?))
}

// The table of this number, where it is no ray.
fn price_table(alloc: Global, cert: &Cert, number: u32) -> Result<Table, Fault>
    ensures prices { IfOk result (IsPriceTable cert.now.tables number) }
    ensures refused { IfErr result (λ fault. (printed : PrintedNumbers) → IsWholeSchedule (written_of cert.now.schedule) printed
        → IsUnpicked cert.now number fault) }
{
    match table_of(alloc, &cert.tables, number)? {
        Some(table) => {
            if table.k() == 0 {
                Err(Fault::NoUplift(UpliftRefusal::Ray))
            } else {
                Ok(table)
            }
        }
        None => Err(Fault::NoUplift(UpliftRefusal::NoTable)),
    }
}

// The schedule and the table of this number of which uplifts are.
fn picked(alloc: Global, cert: &Cert, number: u32) -> Result<(&Printed, Table), Fault>
    ensures picked { IfOk result (λ p. ArePicked cert.now number p.0.now p.1) }
    ensures refused { IfErr result (IsUnpicked cert.now number) }
{
    let printed = whole_schedule(&cert.schedule)?;
    let table = price_table(alloc, cert, number)?;
    Ok((printed, table))
}

// The uplifts of a schedule that obeys at the prices of a table.
fn uplifts_of(
    alloc: Global,
    instance: &Instance,
    printed: &Printed,
    table: &Table,
) -> Result<Uplifts, Fault>
    requires { MayHaveUplifts instance.now printed.now table.now }
    ensures are { IfOk result (AreUplifts instance.now printed.now table.now) }
    ensures memory { IfErr result (λ fault. fault ≡ Fault.Memory) }
{
    let uplifts = uplift::of(alloc, instance, printed, table)?;
    Ok(uplifts)
}

/// A table, with the numbers of the uplifts at its prices.
#[derive(Drop)]
struct Uplifted {
    table: Table,
    numbers: UpliftNumbers,
}

// The uplifts of the schedule at the prices of the table of this number.
fn uplifts_at(alloc: Global, checked: &Checked, number: u32) -> Result<Uplifted, Fault>
    requires { (asked : Check) × (before : Slot → SlotState) × (after : Slot → SlotState) × IsChecked asked before after checked.now }
    ensures uplifted { IfOk result (IsUplifted checked.now number) }
    ensures refused { IfErr result (IsUnpicked checked.now.cert number) }
{
    let (printed, table) = picked(alloc, &checked.cert, number)?;
    match uplifts_of(alloc, &checked.instance, printed, &table) {
        Ok(uplifts) => Ok(Uplifted {
            table,
            numbers: numbers_of(uplifts),
        }),
        Err(fault) => {
            drop(table);
            Err(fault)
        }
    }
}

// The numbers that the report tells.
fn numbers_of(uplifts: Uplifts) -> UpliftNumbers
    ensures { result ≡ told_numbers uplifts }
{
    UpliftNumbers {
        thermal: uplifts.thermal,
        renewable: uplifts.renewable,
        shed: uplifts.shed,
        reserve_slack: uplifts.reserve_slack,
        ramp_slack: uplifts.ramp_slack,
        total: uplifts.total,
    }
}

// Writes the uplifts, and flushes them.
fn tell_uplifts<O: Sink>(out: &mut O, instance: &Instance, told: &Uplifted) -> Result<(), Failed>
    ensures told { OnOk result (IsTold (uplift_report instance.now told.now.table told.now.numbers) (O.state out.old) (O.state out.new)) }
    ensures failed { OnErr result (FailsToTell (uplift_report instance.now told.now.table told.now.numbers) (O.state out.old) (O.state out.new)) }
{
    write_uplift(out, instance, &told.table, &told.numbers)?;
    out.flush()
}

// Checks the certificate and reports its uplifts; the error output is as it may be.
fn uplift_and_tell<F: Files, O: Sink>(
    alloc: Global,
    asked: &Uplift,
    files: &mut F,
    out: &mut O,
) -> Result<End, Failure>
    requires unopened { AllUnopened (F.state files.old) }
    requires prices { HasPrices asked.now.check.shed asked.now.check.spill_reserve }
    ensures done { (err_old err_new : SinkState) → IfOk result (IsUplifting (uplift_asked asked.now)
        (outside_of (F.state files.old) (O.state out.old) err_old) (outside_of (F.state files.new) (O.state out.new) err_new)) }
    ensures failed { (err_old err_new : SinkState) → IfErr result (λ f. IsUpliftFailure (uplift_asked asked.now)
        (outside_of (F.state files.old) (O.state out.old) err_old) (outside_of (F.state files.new) (O.state out.new) err_new) f.fault f.found) }
    ensures files { (err_old err_new : SinkState) → KeepsToInput (uplift_asked asked.now).check
        (outside_of (F.state files.old) (O.state out.old) err_old) (outside_of (F.state files.new) (O.state out.new) err_new) }
{
    let checked = verify(alloc, &asked.check, files)?;
    match uplifts_at(alloc, &checked, asked.table) {
        Ok(uplifted) => {
            let told = tell_uplifts(out, &checked.instance, &uplifted);
            drop((checked, uplifted));
            end_of_report(told)
        }
        Err(fault) => {
            drop(checked);
            Err(Failure { fault, found: None })
        }
    }
}

/// A run of `uplift`: reads instance and certificate, checks the one against the other, and reports the uplifts of its schedule at the
/// prices of one of its tables, or tells a fault. All memory is taken before the first byte is written.
pub fn uplift_certificate<F: Files, O: Sink, E: Sink>(
    alloc: Global,
    asked: &Uplift,
    files: &mut F,
    out: &mut O,
    err: &mut E,
) -> End
    requires unopened { AllUnopened (F.state files.old) }
    requires prices { HasPrices asked.now.check.shed asked.now.check.spill_reserve }
    ensures { IsUpliftRun (uplift_asked asked.now) (outside_of (F.state files.old) (O.state out.old) (E.state err.old))
        (outside_of (F.state files.new) (O.state out.new) (E.state err.new)) result }
{
    let outcome = uplift_and_tell(alloc, asked, files, out);
    end_of(err, outcome)
}
