//! The record of a commit: its entry of the log and what goes with it, or nothing.

ghost use Rattle.std.specs.Prelude.{◌≡◌, ◌<◌, ◌∷◌, ◌++◌, [], OnOk, OnErr, vec_len};
ghost use Rattle.search_machine.specs.Prelude.{with_desk, with_tickets};

use crate::{desks, lists};
use branch_tree::Entry;
use dual_model::Table;
use search_machine::desk::WorkerState;
use std::alloc::Global;
use uc_model::{List, NoMemory};

/// What a commit adds: its entry, and the table that the entry names.
#[derive(Drop)]
pub(crate) struct Added {
    pub entry: Entry,
    pub table: Table,
}

/// Puts the entry into the log, its table behind the tables and the tickets into its worker's hand, or changes nothing.
pub(crate) fn record(
    alloc: Global,
    log: &mut List<Entry>,
    tables: &mut List<Table>,
    desks: &mut Vec<WorkerState>,
    added: Added,
    tickets: &[u32],
) -> Result<(), NoMemory>
    requires { added.entry.worker < vec_len desks.old }
    ensures log { OnOk result (log.new ≡ log.old ++ added.entry ∷ []) }
    ensures tables { OnOk result (tables.new ≡ tables.old ++ added.table ∷ []) }
    ensures desks { OnOk result (desks.new.items ≡ with_desk desks.old.items added.entry.worker (λ desk. with_tickets desk tickets.now)) }
    ensures same { OnErr result ((log.new ≡ log.old) × (tables.new ≡ tables.old) × (desks.new.items ≡ desks.old.items)) }
{
    let Added { entry, table } = added;
    let entries = log.as_slice().len();
    let count = tables.as_slice().len();
    lists::push_both(alloc, log, entry, tables, table)?;
    if desks::take_tickets(alloc, desks, entry.worker, tickets).is_err() {
        lists::shorten(alloc, log, entries);
        lists::shorten(alloc, tables, count);
        return Err(NoMemory);
    }
    Ok(())
}
