//! The lines that say what the runs of a case begin with.

use crate::case::{Case, Failure, Place, Range, Told, call_of, place_of};
use crate::text::{bytes_of, changed, split, with_line, with_list, with_more};
use outside_memory::{FailingCall, Pace};
use std::alloc::{AllocError, Global};
use std::rt::Files;
use std::{fs, io};

// A call that fails, as `DEVICE CALL NUMBER` says.
fn failure_of(text: &str) -> Option<Failure> {
    let (place, text) = split(text);
    let (call, number) = split(text);
    let failing = FailingCall {
        call: call_of(call)?,
        number: number.parse::<u64>().ok()?,
    };
    Some(Failure {
        place: place_of(place)?,
        failing,
    })
}

// What is told of a device, as `DEVICE FRONT` says.
fn told_of(alloc: Global, text: &str) -> Result<Option<Told>, AllocError> {
    let (place, front) = split(text);
    match place_of(place) {
        Some(place) => Ok(Some(Told {
            place,
            front: String::from_str(alloc, front)?,
        })),
        None => Ok(None),
    }
}

// A range, as `WORD LEAST MOST` says.
fn range_of(alloc: Global, text: &str) -> Result<Option<Range>, AllocError> {
    let (word, text) = split(text);
    let (least, most) = split(text);
    let (Ok(least), Ok(most)) = (least.parse::<u32>(), most.parse::<u32>()) else {
        return Ok(None);
    };
    Ok(Some(Range {
        word: String::from_str(alloc, word)?,
        limits: (least, most),
    }))
}

// Puts a value, if there is one, behind others. Whether there is one.
fn add<T: Drop>(others: &mut Vec<T>, value: Option<T>) -> Result<bool, AllocError> {
    match value {
        Some(value) => {
            others.push(value)?;
            Ok(true)
        }
        None => Ok(false),
    }
}

// The bytes of a file that a line says, of which others stand.
fn said<R: Files + AllocGlobal>(
    rt: &R,
    standing: &[u8],
    word: &str,
    rest: &str,
) -> io::Result<Option<Vec<u8>>> {
    let alloc = rt.alloc();
    let said = match word {
        "instance" | "old" => return Ok(Some(fs::read(rt, rest)?)),
        "text" => Ok(Some(bytes_of(alloc, rest)?)),
        "change" => changed(alloc, standing, rest),
        "line" => with_line(alloc, standing, rest),
        "list" => with_list(alloc, standing, rest),
        "more" => with_more(alloc, standing, rest),
        _ => Ok(None),
    };
    Ok(said?)
}

impl Case {
    // What a row says, and the words of its run, as `WORD WORDS` says.
    fn set_rows(&mut self, alloc: Global, text: &str) -> Result<(), AllocError> {
        let (row, words) = split(text);
        self.row = String::from_str(alloc, row)?;
        self.words = String::from_str(alloc, words)?;
        Ok(())
    }

    // Whether a line that begins a case, or says how devices behave, or what is told, is taken.
    fn take_way(&mut self, alloc: Global, word: &str, rest: &str) -> Result<bool, AllocError> {
        match word {
            "" | "#" => Ok(true),
            "case" => {
                drop(std::mem::replace(self, Case::new(alloc)));
                Ok(true)
            }
            "written" => {
                self.certificate = Vec::from_slice(alloc, self.last.to(Place::CertOut))?;
                Ok(true)
            }
            "fails" => add(&mut self.failures, failure_of(rest)),
            "tell" => add(&mut self.told, told_of(alloc, rest)?),
            "range" => add(&mut self.ranges, range_of(alloc, rest)?),
            "slow" => {
                self.pace = Pace::ByteByByte;
                Ok(true)
            }
            "fronts" => {
                self.is_compared = true;
                Ok(true)
            }
            "seek" => {
                self.sought = String::from_str(alloc, rest)?;
                Ok(true)
            }
            "rows" => {
                self.set_rows(alloc, rest)?;
                Ok(true)
            }
            _ => Ok(false),
        }
    }

    /// Whether a line that says what the runs begin with is taken.
    pub(crate) fn take<R: Files + AllocGlobal>(
        &mut self,
        rt: &R,
        word: &str,
        rest: &str,
    ) -> io::Result<bool> {
        let (place, kind) = match word.strip_suffix(".cert") {
            Some(kind) => (Place::CertIn, kind),
            None => (Place::Instance, word),
        };
        match said(rt, self.bytes(place), kind, rest)? {
            Some(bytes) => {
                self.set_bytes(place, bytes);
                Ok(true)
            }
            None => Ok(self.take_way(rt.alloc(), word, rest)?),
        }
    }
}
