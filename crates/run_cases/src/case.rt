//! What a case says of its runs.

use outside_memory::{Call, FailingCall, Pace};
use std::alloc::{AllocError, Global};

/// A device of a run.
#[derive(Clone, Copy, PartialEq, Eq)]
pub(crate) enum Place {
    Instance,
    CertIn,
    CertOut,
    Output,
    Fault,
}

/// The device of a name.
pub(crate) fn place_of(name: &str) -> Option<Place> {
    match name {
        "in.json" => Some(Place::Instance),
        "old.cert" => Some(Place::CertIn),
        "new.cert" => Some(Place::CertOut),
        "output" => Some(Place::Output),
        "error" => Some(Place::Fault),
        _ => None,
    }
}

/// The kind of call of a name.
pub(crate) fn call_of(name: &str) -> Option<Call> {
    match name {
        "open" => Some(Call::Open),
        "read" => Some(Call::Read),
        "write" => Some(Call::Write),
        "finish" => Some(Call::Finish),
        "flush" => Some(Call::Flush),
        _ => None,
    }
}

/// A call that fails on a device.
#[derive(Clone, Copy)]
pub(crate) struct Failure {
    pub place: Place,
    pub failing: FailingCall,
}

/// A device, and the front of those of its lines that are told.
#[derive(Drop)]
pub(crate) struct Told {
    pub place: Place,
    pub front: String,
}

/// A word whose number is from the least to the most, and is told by these alone.
#[derive(Drop)]
pub(crate) struct Range {
    pub word: String,
    pub limits: (u32, u32),
}

/// What a run wrote to each device.
#[derive(Drop)]
pub(crate) struct Written {
    pub certificate: Vec<u8>,
    pub output: Vec<u8>,
    pub fault: Vec<u8>,
}

impl Written {
    // Nothing.
    fn new(alloc: Global) -> Self {
        Written {
            certificate: Vec::new(alloc),
            output: Vec::new(alloc),
            fault: Vec::new(alloc),
        }
    }

    /// The bytes written to a device.
    pub(crate) fn to(&self, place: Place) -> &[u8] {
        match place {
            Place::CertOut => self.certificate.as_slice(),
            Place::Output => self.output.as_slice(),
            Place::Fault => self.fault.as_slice(),
            Place::Instance | Place::CertIn => b"",
        }
    }
}

/// What a case says: the bytes of the files that are read, how the devices behave, and what is told of a run. Besides, what the
/// last run wrote, and what the lines of a table stand for.
#[derive(Drop)]
pub(crate) struct Case {
    pub instance: Vec<u8>,
    pub certificate: Vec<u8>,
    pub failures: Vec<Failure>,
    pub pace: Pace,
    pub told: Vec<Told>,
    pub ranges: Vec<Range>,
    pub sought: String,
    pub is_compared: bool,
    pub last: Written,
    pub row: String,
    pub words: String,
}

impl Case {
    /// Empty files, on which no call fails; all is told.
    pub(crate) fn new(alloc: Global) -> Self {
        Case {
            instance: Vec::new(alloc),
            certificate: Vec::new(alloc),
            failures: Vec::new(alloc),
            pace: Pace::Full,
            told: Vec::new(alloc),
            ranges: Vec::new(alloc),
            sought: String::new(alloc),
            is_compared: false,
            last: Written::new(alloc),
            row: String::new(alloc),
            words: String::new(alloc),
        }
    }

    /// The bytes of the certificate that is read, or else those of the instance.
    pub(crate) fn bytes(&self, place: Place) -> &[u8] {
        match place {
            Place::CertIn => self.certificate.as_slice(),
            _ => self.instance.as_slice(),
        }
    }

    /// Puts other bytes in their place.
    pub(crate) fn set_bytes(&mut self, place: Place, bytes: Vec<u8>) {
        match place {
            Place::CertIn => self.certificate = bytes,
            _ => self.instance = bytes,
        }
    }

    /// The calls that fail on a device.
    pub(crate) fn calls(
        &self,
        alloc: Global,
        place: Place,
    ) -> Result<Vec<FailingCall>, AllocError> {
        let mut calls = Vec::new(alloc);
        for failure in &self.failures {
            if failure.place == place {
                calls.push(failure.failing)?;
            }
        }
        Ok(calls)
    }

    /// Whether a line of a device is told.
    pub(crate) fn tells(&self, place: Place, line: &str) -> bool {
        let mut is_chosen = false;
        for told in &self.told {
            if told.place == place {
                is_chosen = true;
                if line.starts_with(told.front.as_str()) {
                    return true;
                }
            }
        }
        !is_chosen
    }

    /// Whether the last run put a line on the output.
    pub(crate) fn has_reported(&self, line: &str) -> bool {
        let report = std::str::from_utf8(self.last.to(Place::Output));
        for reported in report.unwrap_or_default().lines() {
            if reported == line {
                return true;
            }
        }
        false
    }

    /// The range that a line is told by.
    pub(crate) fn range_of(&self, line: &str) -> Option<&Range> {
        for range in &self.ranges {
            if range.has(line) {
                return Some(range);
            }
        }
        None
    }
}

// The whole part of a number, and whether it has no other.
fn number_of(text: &str) -> Option<(u32, bool)> {
    match text.split_once('.') {
        Some((whole, part)) => Some((whole.parse::<u32>().ok()?, part == "000000")),
        None => Some((text.parse::<u32>().ok()?, true)),
    }
}

impl Range {
    // Whether a line is one of this word, with a number within the range.
    fn has(&self, line: &str) -> bool {
        let Some((word, number)) = line.split_once(' ') else {
            return false;
        };
        match number_of(number) {
            Some((whole, is_whole)) if word == self.word.as_str() => {
                let (least, most) = self.limits;
                least <= whole && (whole < most || whole == most && is_whole)
            }
            _ => false,
        }
    }
}
