//! How a run ends.

ghost use Rattle.command_runs.specs.Ending.{IsEndOf, IsReportEnd};
ghost use Rattle.command_runs.specs.Writing.{TellsFault};

use branch_tree::Found;
use outside::{Failed, Sink};
use report::{Fault, write_fault};
use roll::Rolled;

/// How a run ended: its exit status, of `solve` and `demo` what was found where the status is 0 to 3 or 7, and of `roll` what came of
/// its windows where it is 0, 7 or 10.
#[derive(Drop)]
pub struct End {
    pub code: u8,
    pub found: Option<Found>,
    pub rolled: Option<Rolled>,
}

/// A fault that ends a run, and what was found before it.
#[derive(Drop)]
pub struct Failure {
    pub fault: Fault,
    pub found: Option<Found>,
}

impl From<Fault> for Failure {
    ghost use Rattle.std.specs.Prelude.{◌≡◌, None};

    ghost from_gives = { λ fault failure. failure ≡ record { fault = fault; found = None } };

    fn from(fault: Fault) -> Self {
        Failure { fault, found: None }
    }
}

/// Tells a fault on the error output; that this may fail too changes nothing.
pub fn tell_fault<E: Sink>(err: &mut E, fault: &Fault)
    ensures { TellsFault fault.now (E.state err.old) (E.state err.new) }
{
    let _ = write_fault(err, fault);
}

/// What a run came to that did what was asked: 0 where its report was told, and else that it couldn't be written.
pub fn end_of_report(told: Result<(), Failed>) -> Result<End, Failure>
    ensures { IsReportEnd told result }
{
    match told {
        Ok(()) => Ok(End {
            code: 0,
            found: None,
            rolled: None,
        }),
        Err(Failed) => Err(Failure {
            fault: Fault::Write { output: true },
            found: None,
        }),
    }
}

/// The end of a run by what it came to: an answer as it is, or a fault, which is told on the error output.
pub fn end_of<E: Sink>(err: &mut E, outcome: Result<End, Failure>) -> End
    ensures { IsEndOf outcome (E.state err.old) (E.state err.new) result }
{
    match outcome {
        Ok(answer) => answer,
        Err(Failure { fault, found }) => {
            tell_fault(err, &fault);
            End {
                code: fault.code(),
                found,
                rolled: None,
            }
        }
    }
}
