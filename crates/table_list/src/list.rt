//! A list of price tables.

ghost use Rattle.std.specs.Prelude.{◌≡◌, ◌<◌, ◌∷◌, [], ◌++◌, ◌-◌, length, IfOk, IfSome, option_copied, slice_get, slice_index_or};

use crate::change::Change;
use crate::kept::Kept;
use crate::numbers::Numbers;
use dual_model::Table;
use std::alloc::Global;
use std::marker::Model;
use uc_model::NoMemory;

/// Price tables of one system, one behind the other. Each but the first one is kept as its changes against the one before it, and some
/// beside that whole: the first one, and another one where the changes since the last one are as many as a table has numbers. So a
/// table is rebuilt in about the time in which one is copied, and the memory of all is in proportion to what differs.
///
/// Contracts see a list of tables.
#[derive(Drop)]
pub struct TableList {
    kept: Kept,
    // The last table.
    last: Option<Table>,
}

impl Model for TableList {
    ghost use Rattle.std.specs.Prelude.{List};
    ghost use Rattle.dual_model.specs.Prelude.{PriceTable};

    ghost Value = { List PriceTable };

    ghost use Rattle.table_list.specs.inside.Kept.{IsListed, tables_in};

    ghost view = { λ list. tables_in list.kept };

    ghost invariant = { λ list. IsListed list.kept list.last };
}

impl TableList {
    ghost use Rattle.dual_model.specs.Prelude.{PriceTable};
    ghost use Rattle.table_list.specs.Changes.{table_changes};
    ghost use Rattle.table_list.specs.TableChanges.{changes_of, last_table, AreAlike};

    /// No tables.
    pub fn new(alloc: Global) -> Self
        ensures { result ≡ [] }
    {
        TableList {
            kept: Kept {
                wholes: Vec::new(alloc),
                from: 0,
                room: 0,
                changes: Vec::new(alloc),
                entries: Vec::new(alloc),
            },
            last: None,
        }
    }

    /// The number of tables.
    pub fn len(&self) -> usize
        ensures { result ≡ length self.now }
    {
        self.kept.entries.len()
    }

    /// The last table.
    pub fn last(&self) -> Option<&Table>
        ensures { option_copied result ≡ last_table self.now }
    {
        self.last.as_ref()
    }

    /// The first table.
    pub fn first(&self) -> Option<&Table>
        ensures { option_copied result ≡ slice_get self.now 0 }
    {
        self.kept.wholes.first()
    }

    /// The list with this table behind its last one. `NoMemory` comes only where memory is refused.
    pub fn push(self, alloc: Global, table: Table) -> Result<TableList, NoMemory>
        requires { IfSome (last_table self) (λ last. AreAlike last table) }
        ensures { IfOk result (λ list. list ≡ self ++ table ∷ []) }
    {
        let TableList { mut kept, last } = self;
        kept.push_behind(alloc, &last, &table)?;
        Ok(TableList {
            kept,
            last: Some(table),
        })
    }

    /// The table of this number, from 0, rebuilt. `NoMemory` comes only where memory is refused.
    pub fn table(&self, alloc: Global, number: usize) -> Result<Table, NoMemory>
        requires { number < length self.now }
        ensures { IfOk result (λ table. (d : PriceTable) → table ≡ slice_index_or self.now number d) }
    {
        let entry = &self.kept.entries[number];
        let mut numbers = Numbers::of(alloc, &self.kept.wholes[entry.whole], entry.k)?;
        numbers.make_all(&self.kept.changes[entry.from..entry.end])?;
        numbers.table(alloc)
    }

    /// The scale of the table of this number, from 0.
    pub fn scale(&self, number: usize) -> i64
        requires { number < length self.now }
        ensures { (d : PriceTable) → result ≡ (slice_index_or self.now number d).k }
    {
        self.kept.entries[number].k
    }

    /// The changes of the table of this number, which isn't the first one, against the one before it.
    pub fn changes(&self, number: usize) -> &[Change]
        requires some { 0 < number }
        requires number { number < length self.now }
        ensures { (d e : PriceTable) → changes_of result.now ≡ table_changes (slice_index_or self.now (number - 1) d) (slice_index_or self.now number e) }
    {
        let entry = &self.kept.entries[number];
        &self.kept.changes[entry.start..entry.end]
    }
}
