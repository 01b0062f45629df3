//! A table that is being read.

ghost use Rattle.std.specs.Prelude.{◌≡◌, ◌<◌, ◌^◌, IfOk};
ghost use Rattle.dual_model.specs.Prelude.{IsWellFormed};
ghost use Rattle.cert_text.specs.inside.Drafts.{drafted};

use dual_model::{RampRow, Table};
use std::alloc::Global;
use uc_model::NoMemory;

/// The numbers of a table, with room that is kept from table to table.
#[derive(Drop)]
pub(crate) struct Draft {
    pub(crate) units: u32,
    pub(crate) k: u64,
    pub(crate) pi: Vec<i64>,
    pub(crate) mu: Vec<i64>,
    pub(crate) ramps: Vec<RampRow>,
}

impl Draft {
    /// No numbers.
    pub(crate) fn new(alloc: Global) -> Self {
        Draft {
            units: 0,
            k: 0,
            pi: Vec::new(alloc),
            mu: Vec::new(alloc),
            ramps: Vec::new(alloc),
        }
    }

    /// The table of these numbers. `NoMemory` comes only where memory is refused.
    pub(crate) fn table(&self, alloc: Global) -> Result<Table, NoMemory>
        requires scale { self.now.k < 10 ^ 18 }
        requires form { IsWellFormed (drafted self.now self.now.ramps.items) }
        ensures { IfOk result (λ table. table ≡ drafted self.now self.now.ramps.items) }
    {
        Table::new(
            alloc,
            self.units,
            self.k as i64,
            self.pi.as_slice(),
            self.mu.as_slice(),
            self.ramps.as_slice(),
        )
    }
}
