//! The top call: a run of the program from its words.

ghost use Rattle.std.specs.Prelude.{◌≡◌, map, string_bytes, true, false, Some};
ghost use Rattle.outside.specs.Prelude.{AllUnopened};
ghost use Rattle.command_line.specs.Arguments.{is_taken};
ghost use Rattle.command_line.specs.Command.{Command as WordsCommand, command_of as command_of_words};
ghost use Rattle.command_runs.specs.Prelude.{outside_of};
ghost use Rattle.uc_cli.specs.Run.{IsRun, IsUsage};

use crate::demo::demo;
use crate::rolling::roll_windows;
use crate::solve::solve;
use command_line::{Command, command_of};
use command_runs::{End, Failure, end_of};
use outside::{Files, Gate, Sink};
use std::alloc::Global;
use std::sync::Wait;
use std::thread::Threads;
use uc_check::{check_certificate, upgrade_certificate};
use uc_uplift::uplift_certificate;

/// A run of the program. The words begin with the program's name; each slot of the files is unopened.
///
/// Its status is
///
/// - 0 where `solve` or `demo` printed a schedule whose cost is within the gap of the bound, or `roll` one of all periods; where the
///   certificate holds for the instance (`check`), has uplifts besides (`uplift`) or was written anew (`upgrade`);
/// - 1 where `solve` or `demo` printed a schedule whose cost is above that gap;
/// - 2 where they printed a bound and found no schedule;
/// - 3 where they found that none exists;
/// - 4 where the instance's bytes stand for no instance or are more than 2^26, or the prices of shortages are too high for it;
/// - 5 where the command-line parser doesn't take the words;
/// - 6 where reading the instance or the certificate failed;
/// - 7 where writing the certificate or the report failed;
/// - 8 where memory was refused;
/// - 9 where the certificate is no certificate's text, has more than 2^46 bytes, doesn't hold for the instance (`check`, `uplift`) or has no
///   uplifts (`uplift`);
/// - 10 where the search of a window found no schedule (`roll`).
pub fn uc<R: Threads + Wait + Sync, F: Files, O: Sink, E: Sink, G: Gate + Sync>(
    rt: &R,
    alloc: Global,
    words: &[String],
    files: &mut F,
    out: &mut O,
    err: &mut E,
    gate: &G,
) -> End
    requires { AllUnopened (F.state files.old) }
    ensures usage { let before = outside_of (F.state files.old) (O.state out.old) (E.state err.old) in
        let after = outside_of (F.state files.new) (O.state out.new) (E.state err.new) in
        is_taken (map string_bytes words.now) ≡ false → IsUsage before after result }
    ensures run { let before = outside_of (F.state files.old) (O.state out.old) (E.state err.old) in
        let after = outside_of (F.state files.new) (O.state out.new) (E.state err.new) in
        is_taken (map string_bytes words.now) ≡ true
        → (command : WordsCommand) × (command_of_words (map string_bytes words.now) ≡ Some command) × IsRun command before after result }
{
    match command_of(alloc, words) {
        Ok(Command::Solve(asked)) => solve(rt, alloc, &asked, files, out, err, gate),
        Ok(Command::Check(asked)) => check_certificate(alloc, &asked, files, out, err),
        Ok(Command::Demo(asked)) => demo(rt, alloc, &asked, out, err, gate),
        Ok(Command::Upgrade(asked)) => upgrade_certificate(alloc, &asked, files, out, err),
        Ok(Command::Uplift(asked)) => uplift_certificate(alloc, &asked, files, out, err),
        Ok(Command::Roll(asked)) => roll_windows(rt, alloc, &asked, files, out, err, gate),
        Err(fault) => end_of(err, Err(Failure { fault, found: None })),
    }
}
