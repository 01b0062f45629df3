//! Runs that are alike but for a number.

use crate::case::{Case, Failure, Place};
use crate::ending::text_of;
use crate::run::run;
use outside_memory::Pace;
use std::alloc::{AllocError, Global};
use std::io;
use std::sync::Wait;
use std::thread::Threads;

/// Runs one after another that ended alike: their first and last number, of which the last may be left untold, and how they ended.
#[derive(Drop)]
pub(crate) struct Alike {
    first: u64,
    last: u64,
    is_last_told: bool,
    ending: String,
}

impl Alike {
    /// None yet.
    pub(crate) fn new(alloc: Global) -> Self {
        Alike {
            first: 0,
            last: 0,
            is_last_told: true,
            ending: String::new(alloc),
        }
    }

    // Tells them, if there are any.
    fn tell(&self, rt: &impl Print) -> io::Result<()> {
        if self.ending.is_empty() {
            return Ok(());
        }
        if self.is_last_told {
            println!(rt; "{} to {}", self.first, self.last)?;
        } else {
            println!(rt; "from {}", self.first)?;
        }
        rt.print(self.ending.as_str())
    }

    // One more. Where it ended otherwise, the ones before are told.
    fn put(&mut self, rt: &impl Print, number: u64, ending: String) -> io::Result<()> {
        if self.ending.as_str() != ending.as_str() {
            self.tell(rt)?;
            self.first = number;
            self.ending = ending;
        }
        self.last = number;
        Ok(())
    }
}

// The ending of a run of an instance with `N` for a number.
fn with_n(alloc: Global, place: Place, ending: String, number: u64) -> Result<String, AllocError> {
    match place {
        Place::Instance => {
            let number = format!(in alloc; " {number}:")?;
            ending.replace(alloc, number.as_str(), " N:")
        }
        _ => Ok(ending),
    }
}

// How a run ended, and whether a call on a device failed.
fn ending_of<R: Threads + Wait + Sync + AllocGlobal>(
    rt: &R,
    case: &Case,
    words: &str,
    place: Place,
) -> Result<(String, bool), AllocError> {
    let ended = run(rt, rt.alloc(), case, words)?;
    let ending = text_of(rt.alloc(), case, &ended);
    let has_failed = ended.faults(place) > 0;
    drop(ended);
    Ok((ending?, has_failed))
}

impl Alike {
    /// Runs in which the first call of this kind on this device fails, the second one, and so on to the last. How many there are is told
    /// where devices go byte by byte: else it is up to the program.
    pub(crate) fn fail_each<R: Threads + Wait + Sync + Print + AllocGlobal>(
        &mut self,
        rt: &R,
        case: &mut Case,
        failure: Failure,
        words: &str,
    ) -> io::Result<()> {
        let mut failure = failure;
        self.is_last_told = case.pace == Pace::ByteByByte;
        for number in 0..1_000_000u64 {
            failure.failing.number = number;
            case.failures.push(failure)?;
            let (ending, has_failed) = ending_of(rt, case, words, failure.place)?;
            let _ = case.failures.pop();
            if !has_failed {
                break;
            }
            self.put(rt, number, ending)?;
        }
        if self.ending.is_empty() {
            return rt.println("none");
        }
        self.tell(rt)
    }

    /// Runs whose instance, or certificate, is cut to no byte, to one, and so on up to all but one. In the endings of those of an instance
    /// `N` is the number of bytes.
    pub(crate) fn cut_each<R: Threads + Wait + Sync + Print + AllocGlobal>(
        &mut self,
        rt: &R,
        place: Place,
        words: &str,
        case: &mut Case,
    ) -> io::Result<()> {
        let whole = Vec::from_slice(rt.alloc(), case.bytes(place))?;
        for length in 0..whole.len() {
            case.set_bytes(place, Vec::from_slice(rt.alloc(), &whole[..length])?);
            let (ending, _) = ending_of(rt, case, words, place)?;
            let number = length as u64;
            self.put(rt, number, with_n(rt.alloc(), place, ending, number)?)?;
        }
        case.set_bytes(place, whole);
        self.tell(rt)
    }
}
