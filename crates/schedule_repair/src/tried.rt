//! Tries without gain, which need not be made again.

use repair_state::{Period, mixed, stretch};
use std::alloc::Global;
use uc_model::NoMemory;

/// So many tries are remembered.
const TRIES: usize = 1 << 16;

/// Marks of tries. Where many are remembered, a new one takes the place of another.
#[derive(Drop)]
pub(crate) struct Tried {
    marks: Vec<u64>,
}

impl Tried {
    /// No memory for tries.
    pub(crate) fn new(alloc: Global) -> Tried {
        Tried {
            marks: Vec::new(alloc),
        }
    }

    /// Takes memory for tries. The only error is `NoMemory`.
    pub(crate) fn fill(&mut self) -> Result<(), NoMemory> {
        stretch(&mut self.marks, TRIES, 0)
    }

    /// Whether a try is remembered.
    pub(crate) fn has(&self, mark: u64) -> bool {
        let place = place(mark);
        place < self.marks.len() && self.marks[place] == mark
    }

    /// Remembers a try.
    pub(crate) fn put(&mut self, mark: u64) {
        let place = place(mark);
        if place < self.marks.len() {
            self.marks[place] = mark;
        }
    }
}

fn place(mark: u64) -> usize {
    (mark >> 48) as usize
}

/// The mark of a try of unit g in a state of the periods.
pub(crate) fn mark_of_try(periods: &[Period], g: usize) -> u64 {
    let mut mark = g as u64;
    for period in periods {
        mark = mixed(mark, period.key());
    }
    mark
}
