//! A run of the program on devices in memory.

ghost use Rattle.std.specs.Prelude.{◌≡◌, IfOk};
ghost use Rattle.outside.specs.Prelude.{AllUnopened};
ghost use Rattle.outside.specs.declared.slot.Stage.TheVariants.{Unopened};

use crate::case::{Case, Place};
use crate::tally::Tally;
use outside::{Device, Devices, Files};
use outside_memory::{FaultyFile, FaultySink};
use std::alloc::{AllocError, Global};
use std::sync::Wait;
use std::thread::Threads;
use uc_cli::uc;

/// How a run ended: its status, whether it hands out what was found, or what came of windows, how often the gate was entered, and, where the words name no number
/// of workers, how often out of turn; and the devices.
#[derive(Drop)]
pub(crate) struct Ended {
    pub code: u8,
    pub has_found: bool,
    pub has_rolled: bool,
    pub entries: u64,
    pub strays: u64,
    pub files: Devices<FaultyFile>,
    pub out: FaultySink,
    pub err: FaultySink,
}

impl Ended {
    /// How many calls on a device failed.
    pub(crate) fn faults(&self, place: Place) -> u64 {
        match place {
            Place::Instance => self.files.instance.schedule.faults,
            Place::CertIn => self.files.cert_in.schedule.faults,
            Place::CertOut => self.files.cert_out.schedule.faults,
            Place::Output => self.out.schedule.faults,
            Place::Fault => self.err.schedule.faults,
        }
    }
}

// The program's name and the words of a line, of which `""` is the empty one.
fn words_of(alloc: Global, line: &str) -> Result<Vec<String>, AllocError> {
    let mut words = Vec::new(alloc);
    words.push(String::from_str(alloc, "uc")?)?;
    for word in line.split(' ') {
        if word == "\"\"" {
            words.push(String::new(alloc))?;
        } else if !word.is_empty() {
            words.push(String::from_str(alloc, word)?)?;
        }
    }
    Ok(words)
}

// The file of a device, on which the case's calls fail.
fn file_of(
    alloc: Global,
    case: &Case,
    place: Place,
    name: &str,
    input: &[u8],
) -> Result<FaultyFile, AllocError>
    ensures { IfOk result (λ file. (⟦<FaultyFile as Device>⟧.state file).stage ≡ Unopened) }
{
    let calls = case.calls(alloc, place)?;
    FaultyFile::new(alloc, name, input, &calls, case.pace)
}

// The output of a device.
fn sink_of(alloc: Global, case: &Case, place: Place) -> Result<FaultySink, AllocError> {
    let calls = case.calls(alloc, place)?;
    FaultySink::new(alloc, &calls, case.pace)
}

// The devices of a run that hasn't begun.
fn unbegun(alloc: Global, case: &Case) -> Result<Ended, AllocError>
    ensures { IfOk result (λ ended. AllUnopened (⟦<Devices<FaultyFile> as Files>⟧.state ended.files)) }
{
    let out = sink_of(alloc, case, Place::Output)?;
    let err = sink_of(alloc, case, Place::Fault)?;
    let files = Devices::new(
        file_of(alloc, case, Place::Instance, "in.json", &case.instance)?,
        file_of(alloc, case, Place::CertIn, "old.cert", &case.certificate)?,
        file_of(alloc, case, Place::CertOut, "new.cert", b"")?,
    );
    Ok(Ended {
        code: 0,
        has_found: false,
        has_rolled: false,
        entries: 0,
        strays: 0,
        files,
        out,
        err,
    })
}

// Whether the words name a number of workers. Several enter the gate in no order.
fn names_workers(words: &[String]) -> bool {
    words.iter().any(|word| word.starts_with("--workers"))
}

// Runs the program on devices.
fn carried_out<R: Threads + Wait + Sync>(
    rt: &R,
    alloc: Global,
    words: &[String],
    run: Ended,
) -> Ended
    requires { AllUnopened (⟦<Devices<FaultyFile> as Files>⟧.state run.files) }
{
    let mut run = run;
    let gate = Tally::new();
    let end = uc(
        rt,
        alloc,
        words,
        &mut run.files,
        &mut run.out,
        &mut run.err,
        &gate,
    );
    run.code = end.code;
    run.has_found = end.found.is_some();
    run.has_rolled = end.rolled.is_some();
    drop(end);
    run.entries = gate.entries();
    if !names_workers(words) {
        run.strays = gate.strays();
    }
    run
}

/// Runs the program with the words of a line.
pub(crate) fn run<R: Threads + Wait + Sync>(
    rt: &R,
    alloc: Global,
    case: &Case,
    line: &str,
) -> Result<Ended, AllocError> {
    let words = words_of(alloc, line)?;
    Ok(carried_out(rt, alloc, &words, unbegun(alloc, case)?))
}
