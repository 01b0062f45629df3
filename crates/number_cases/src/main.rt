//! Tests of the numbers of the search. The files `data/cases` and `data/pivot` tell systems and ask of them, line by line; the
//! file `stdout` has their lines, and behind each question what is answered. Powers are in watts, costs in micro-dollars;
//! units, periods and rays count from 1.
#![tactic(auto)]

mod commitment;
mod demo;
mod dispatch;
mod exact;
mod interval;
mod line;
mod node;
mod pivot;
mod reporting;
mod rolling;
mod system;
mod table;
mod text;
mod unit;
mod uplifts;

use crate::line::follow;
use std::{fs, io};
use uc_model::NoMemory;

/// What is answered to a question.
type Answer = Result<String, NoMemory>;

/// The files of cases.
const FILES: [&str; 2] = ["cases", "pivot"];

fn main(rt: HostRuntime) -> io::Result<()> {
    for file in FILES {
        let lines = fs::read_to_string(&rt, file)?;
        let mut system = String::new(rt.alloc());
        for line in lines.lines() {
            rt.println(line)?;
            follow(&rt, &mut system, line)?;
        }
    }
    Ok(())
}
