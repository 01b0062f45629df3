//! The lines of the cases.

use crate::case::{Case, Failure, Place, call_of, place_of};
use crate::ending::text_of;
use crate::run::{Ended, run};
use crate::sweep::Alike;
use crate::text::split;
use outside_memory::FailingCall;
use std::alloc::{AllocError, Global};
use std::io;
use std::rt::Files;
use std::sync::Wait;
use std::thread::Threads;

impl Case {
    // Keeps what a run wrote.
    fn keep(&mut self, alloc: Global, ended: &Ended) -> Result<(), AllocError> {
        let certificate = ended.files.cert_out.memory.written().unwrap_or_default();
        self.last.certificate = Vec::from_slice(alloc, certificate)?;
        let output = ended.out.memory.written().unwrap_or_default();
        self.last.output = Vec::from_slice(alloc, output)?;
        let fault = ended.err.memory.written().unwrap_or_default();
        self.last.fault = Vec::from_slice(alloc, fault)?;
        Ok(())
    }

    // Whether a run wrote the same as the one before, and flushed it.
    fn is_repeated(&self, ended: Ended) -> bool {
        ended.files.cert_out.memory.written() == Some(self.last.to(Place::CertOut))
            && ended.out.memory.flushed() == Some(self.last.to(Place::Output))
    }
}

// How a run ended.
fn tell_ended<R: Print + AllocGlobal>(rt: &R, case: &mut Case, ended: &Ended) -> io::Result<()> {
    rt.print(text_of(rt.alloc(), case, ended)?.as_str())?;
    Ok(case.keep(rt.alloc(), ended)?)
}

// A run with these words, and how it ended.
fn tell_run<R: Threads + Wait + Sync + Print + AllocGlobal>(
    rt: &R,
    case: &mut Case,
    words: &str,
) -> io::Result<()> {
    let ended = run(rt, rt.alloc(), case, words)?;
    let told = tell_ended(rt, case, &ended);
    drop(ended);
    told
}

// A run with these words, and whether it wrote the same as the one before.
fn tell_again<R: Threads + Wait + Sync + Print + AllocGlobal>(
    rt: &R,
    case: &Case,
    words: &str,
) -> io::Result<()> {
    rt.println(if case.is_repeated(run(rt, rt.alloc(), case, words)?) {
        "the same"
    } else {
        "not the same"
    })
}

// A run of a row, after which the files and the calls that fail are as before.
fn tell_row<R: Threads + Wait + Sync + Print + Files + AllocGlobal>(
    rt: &R,
    case: &mut Case,
    rest: &str,
) -> io::Result<()> {
    let alloc = rt.alloc();
    let instance = Vec::from_slice(alloc, case.instance.as_slice())?;
    let certificate = Vec::from_slice(alloc, case.certificate.as_slice())?;
    let failures = Vec::from_slice(alloc, case.failures.as_slice())?;
    let row = case.row.clone()?;
    let words = case.words.clone()?;
    if !case.take(rt, row.as_str(), rest)? {
        rt.println("no such row")?;
    }
    tell_run(rt, case, words.as_str())?;
    case.instance = instance;
    case.certificate = certificate;
    case.failures = failures;
    Ok(())
}

// Runs in which each call of a kind fails in turn, as `DEVICE CALL WORDS` says.
fn tell_each<R: Threads + Wait + Sync + Print + AllocGlobal>(
    rt: &R,
    case: &mut Case,
    rest: &str,
) -> io::Result<()> {
    let (place, rest) = split(rest);
    let (call, words) = split(rest);
    match (place_of(place), call_of(call)) {
        (Some(place), Some(call)) => {
            let failing = FailingCall { call, number: 0 };
            Alike::new(rt.alloc()).fail_each(rt, case, Failure { place, failing }, words)
        }
        _ => rt.println("no such call"),
    }
}

// Does what a line says. A line that says nothing is told.
fn follow<R: Threads + Wait + Sync + Print + Files + AllocGlobal>(
    rt: &R,
    case: &mut Case,
    line: &str,
) -> io::Result<()> {
    let (word, rest) = split(line);
    match word {
        "run" => tell_run(rt, case, rest),
        "again" => tell_again(rt, case, rest),
        "|" => tell_row(rt, case, rest),
        "each" => tell_each(rt, case, rest),
        "cut" => Alike::new(rt.alloc()).cut_each(rt, Place::Instance, rest, case),
        "cut.cert" => Alike::new(rt.alloc()).cut_each(rt, Place::CertIn, rest, case),
        _ => {
            if !case.take(rt, word, rest)? {
                rt.println("no such line")?;
            }
            Ok(())
        }
    }
}

/// Tells each line, and does what it says.
pub(crate) fn follow_each<R: Threads + Wait + Sync + Print + Files + AllocGlobal>(
    rt: &R,
    case: &mut Case,
    lines: &str,
) -> io::Result<()> {
    for line in lines.lines() {
        rt.println(line)?;
        follow(rt, case, line)?;
    }
    Ok(())
}
