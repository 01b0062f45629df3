//! Tests of whole runs of the program, on devices in memory. Files of `data/` say them line by line, and the file
//! `stdout` what is printed: the lines of the cases, and below those of runs how each ended.
#![tactic(auto)]

mod case;
mod ending;
mod line;
mod run;
mod setting;
mod sweep;
mod tally;
mod text;

use crate::case::Case;
use crate::line::follow_each;
use std::{fs, io};

/// The files of cases.
const FILES: [&str; 9] = [
    "solve", "check", "exact", "pivot", "upgrade", "uplift", "roll", "words", "formats",
];

fn main(rt: HostRuntime) -> io::Result<()> {
    for file in FILES {
        let lines = fs::read_to_string(&rt, file)?;
        follow_each(&rt, &mut Case::new(rt.alloc()), lines.as_str())?;
    }
    Ok(())
}
