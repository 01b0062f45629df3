//! A gate that counts.

use outside::Gate;
use std::sync::Wait;
use std::sync::atomic::{AtomicU64, Ordering};

/// A gate that lets every worker pass, and keeps how often it was entered, and how often out of turn.
#[derive(Drop)]
pub(crate) struct Tally {
    entries: AtomicU64,
    last: AtomicU64,
    strays: AtomicU64,
}

impl Tally {
    /// A gate that nobody has entered.
    pub(crate) fn new() -> Self {
        Tally {
            entries: AtomicU64::new(0),
            last: AtomicU64::new(0),
            strays: AtomicU64::new(0),
        }
    }

    /// How often it was entered.
    pub(crate) fn entries(&self) -> u64 {
        self.entries.load(Ordering::SeqCst)
    }

    /// How often by another worker than the first one, or neither for the first unit of a search nor for the one behind that of the entry
    /// before.
    pub(crate) fn strays(&self) -> u64 {
        self.strays.load(Ordering::SeqCst)
    }
}

impl Gate for Tally {
    fn enter<R: Wait>(&self, _rt: &R, worker: u8, unit: u32) {
        self.entries.fetch_add(1, Ordering::SeqCst);
        let before = self.last.swap(u64::from(unit), Ordering::SeqCst);
        if worker != 0 || (unit != 1 && before.wrapping_add(1) != u64::from(unit)) {
            self.strays.fetch_add(1, Ordering::SeqCst);
        }
    }
}
