//! Reports of dispatches, whose powers are taken as numerators.

ghost use Rattle.uc_model.specs.Prelude.{IsLawfulInstance};

use crate::Answer;
use crate::dispatch::{dispatched, no_dispatch};
use crate::text::{first, told};
use branch_tree::{Found, Layout, Tree};
use outside_memory::MemorySink;
use report::write_found;
use std::alloc::Global;
use std::str;
use uc_model::{Instance, List, NoMemory, Printed};

/// The report of a commitment's dispatch, as `DENOMINATOR BITS..` says: its powers are taken as numerators over the denominator.
pub(crate) fn tell_report(alloc: Global, instance: &Instance, words: &str) -> Answer
    requires { IsLawfulInstance instance.now }
{
    let (denominator, bits) = first(words);
    match dispatched(alloc, instance, bits) {
        Ok(printed) => {
            let mut printed = printed;
            printed.denominator = denominator.parse::<u8>().unwrap_or(1);
            report_text(alloc, instance, printed)
        }
        Err(why) => no_dispatch(alloc, why),
    }
}

// The report of a search that found the schedule at a cost and a bound of nothing.
fn report_text(alloc: Global, instance: &Instance, printed: Printed) -> Answer {
    match Tree::with_room(alloc, 0, 0, 1) {
        Ok(tree) => {
            let found = found_with(alloc, printed, tree);
            let text = written(alloc, instance, &found);
            drop(found);
            text
        }
        Err(NoMemory) => {
            drop(printed);
            Err(NoMemory)
        }
    }
}

fn found_with(alloc: Global, printed: Printed, tree: Tree) -> Found {
    Found {
        schedule: Some((printed, 0)),
        tree,
        tables: List::from_vec(Vec::new(alloc)),
        log: List::from_vec(Vec::new(alloc)),
        most_on: None,
        layout: Layout {
            nodes: List::from_vec(Vec::new(alloc)),
            tables: List::from_vec(Vec::new(alloc)),
        },
    }
}

// The report that is written of it.
fn written(alloc: Global, instance: &Instance, found: &Found) -> Answer {
    let mut sink = MemorySink::new(alloc);
    let outcome = write_found(&mut sink, found, instance, 0, 0);
    match (outcome, sink.written()) {
        (Ok(()), Some(bytes)) => told(alloc, str::from_utf8(bytes).unwrap_or("")),
        _ => Err(NoMemory),
    }
}
