//! A run of `check`.

ghost use Rattle.std.specs.Prelude.{IfOk, IfErr, OnOk, OnErr};
ghost use Rattle.outside.specs.Prelude.{AllUnopened, SinkState};
ghost use Rattle.report.specs.ClaimsReport.{claims_report};
ghost use Rattle.command_line.specs.Asked.{check_asked, HasPrices};
ghost use Rattle.command_runs.specs.Prelude.{outside_of, IsTold, FailsToTell};
ghost use Rattle.uc_check.specs.Checking.{IsAccepting, IsCheckFailure, KeepsToInput, IsCheckRun};

use crate::verify::verify;
use cert_check::Claims;
use command_line::Check;
use command_runs::{End, Failure, end_of, end_of_report};
use outside::{Failed, Files, Sink};
use report::write_claims;
use std::alloc::Global;

// Writes what an accepted certificate claims, and flushes it.
fn tell_claims<O: Sink>(out: &mut O, claims: &Claims) -> Result<(), Failed>
    ensures told { OnOk result (IsTold (claims_report claims.now.cost claims.now.bound claims.now.infeasible) (O.state out.old) (O.state out.new)) }
    ensures failed { OnErr result (FailsToTell (claims_report claims.now.cost claims.now.bound claims.now.infeasible) (O.state out.old) (O.state out.new)) }
{
    write_claims(out, claims.cost, claims.bound, claims.infeasible)?;
    out.flush()
}

// Checks the certificate and reports what it claims; the error output is as it may be.
fn verify_and_tell<F: Files, O: Sink>(
    alloc: Global,
    asked: &Check,
    files: &mut F,
    out: &mut O,
) -> Result<End, Failure>
    requires unopened { AllUnopened (F.state files.old) }
    requires prices { HasPrices asked.now.shed asked.now.spill_reserve }
    ensures done { (err_old err_new : SinkState) → IfOk result (IsAccepting (check_asked asked.now)
        (outside_of (F.state files.old) (O.state out.old) err_old) (outside_of (F.state files.new) (O.state out.new) err_new)) }
    ensures failed { (err_old err_new : SinkState) → IfErr result (λ f. IsCheckFailure (check_asked asked.now)
        (outside_of (F.state files.old) (O.state out.old) err_old) (outside_of (F.state files.new) (O.state out.new) err_new) f.fault f.found) }
    ensures files { (err_old err_new : SinkState) → KeepsToInput (check_asked asked.now)
        (outside_of (F.state files.old) (O.state out.old) err_old) (outside_of (F.state files.new) (O.state out.new) err_new) }
{
    let checked = verify(alloc, asked, files)?;
    let told = tell_claims(out, &checked.claims);
    drop(checked);
    end_of_report(told)
}

/// A run of `check`: reads instance and certificate, checks the one against the other and reports what is claimed, or
/// tells a fault.
pub fn check_certificate<F: Files, O: Sink, E: Sink>(
    alloc: Global,
    asked: &Check,
    files: &mut F,
    out: &mut O,
    err: &mut E,
) -> End
    requires unopened { AllUnopened (F.state files.old) }
    requires prices { HasPrices asked.now.shed asked.now.spill_reserve }
    ensures { IsCheckRun (check_asked asked.now) (outside_of (F.state files.old) (O.state out.old) (E.state err.old))
        (outside_of (F.state files.new) (O.state out.new) (E.state err.new)) result }
{
    let outcome = verify_and_tell(alloc, asked, files, out);
    end_of(err, outcome)
}
