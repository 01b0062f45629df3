//! The memory of paths.

ghost use Rattle.std.specs.Prelude.{◌≡◌, ◌≤◌, IfOk};

use crate::hour::{Hour, UNKNOWN};
use interval_graph::Intervals;
use std::alloc::Global;
use std::marker::Model;
use uc_model::NoMemory;
use uc_model::limits::MAX_PERIODS;

/// The memory of paths over a number of periods, which contracts see as that number.
#[derive(Drop)]
pub struct Scratch {
    pub(crate) intervals: Intervals,
    /// The periods, and the end of the horizon.
    pub(crate) hours: Vec<Hour>,
}

impl Model for Scratch {
    ghost use Rattle.std.specs.Prelude.{ℕ, suc, ◌≡◌, length};

    ghost Value = { ℕ };

    ghost view = { λ scratch. length scratch.intervals };

    ghost invariant = { λ scratch. length scratch.hours.items ≡ suc (length scratch.intervals) };
}

impl Scratch {
    /// The memory of paths over `periods` periods, at most `MAX_PERIODS`. The only error is `NoMemory`.
    pub fn new(alloc: Global, periods: usize) -> Result<Scratch, NoMemory>
        requires { periods ≤ MAX_PERIODS }
        ensures { IfOk result (λ scratch. scratch ≡ periods) }
    {
        let intervals = Intervals::new(alloc, periods)?;
        let hours = vec![in alloc; UNKNOWN; periods + 1]?;
        Ok(Scratch { intervals, hours })
    }
}
