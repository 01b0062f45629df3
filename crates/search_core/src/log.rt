//! What the log tells of one node.

ghost use Rattle.std.specs.Prelude.{◌≡◌, ◌↔◌, IsTrue, All, length};
ghost use Rattle.search_machine.specs.Prelude.{entries_of, IsElsewhere};

use branch_tree::Entry;
use dual_model::Table;
use search_machine::tables::is_table;

/// How many entries the node has.
pub(crate) fn count(log: &[Entry], node: u32) -> usize
    ensures { result ≡ length (entries_of log.now node) }
{
    log.iter().filter(|entry| entry.node == node).count()
}

// Whether the entry isn't at this table with a value of this kind.
fn is_elsewhere(entry: &Entry, tables: &[Table], table: &Table, exact: bool) -> bool
    ensures { IsTrue result ↔ IsElsewhere tables.now table.now exact entry.now }
{
    entry.exact != exact || !is_table(tables, entry.table, table)
}

/// Whether none of the node's entries is at this table with a value of this kind.
pub(crate) fn is_fresh(
    log: &[Entry],
    tables: &[Table],
    node: u32,
    table: &Table,
    exact: bool,
) -> bool
    ensures { IsTrue result ↔ All (λ entry. entry.node ≡ node → IsElsewhere tables.now table.now exact entry) log.now }
{
    for entry in log {
        if entry.node == node && !is_elsewhere(entry, tables, table, exact) {
            return false;
        }
    }
    true
}
