//! What a list keeps of its tables.

ghost use Rattle.std.specs.Prelude.{◌≡◌, ◌<◌, ◌∷◌, [], ◌++◌, length, IfSome, OnOk, None, Some};
ghost use Rattle.dual_model.specs.Prelude.{IsWellFormed};
ghost use Rattle.table_list.specs.TableChanges.{AreAlike, last_table};
ghost use Rattle.table_list.specs.inside.Kept.{IsListed, IsWholeAdded, IsToldAdded, tables_in};

use crate::change::Change;
use crate::differences::push_changes;
use dual_model::Table;
use std::alloc::Global;
use uc_model::NoMemory;

/// What is kept of a table: its scale, the table that is kept whole of which it is rebuilt, and the changes by which: from a place in
/// the list of all changes up to another. Its own changes, against the table before it, are the last ones of these.
#[derive(Clone, Copy)]
pub(crate) struct Entry {
    pub(crate) k: i64,
    pub(crate) whole: usize,
    pub(crate) from: usize,
    pub(crate) start: usize,
    pub(crate) end: usize,
}

/// The tables that are kept whole; the place in the list of changes from which on they lie behind the last one of these, and how many
/// numbers that one has; the changes; and an entry for each table.
#[derive(Drop)]
pub(crate) struct Kept {
    pub(crate) wholes: Vec<Table>,
    pub(crate) from: usize,
    pub(crate) room: usize,
    pub(crate) changes: Vec<Change>,
    pub(crate) entries: Vec<Entry>,
}

impl Kept {
    // Adds a table that is kept whole, of so many numbers, whose own changes begin there.
    fn push_whole(
        &mut self,
        alloc: Global,
        table: &Table,
        numbers: usize,
        start: usize,
    ) -> Result<(), NoMemory>
        ensures { OnOk result (IsWholeAdded self.old self.new table.now start) }
    {
        let end = self.changes.len();
        self.entries.push(Entry {
            k: table.k(),
            whole: self.wholes.len(),
            from: end,
            start,
            end,
        })?;
        self.wholes.push(table.copy(alloc)?)?;
        self.from = end;
        self.room = numbers;
        Ok(())
    }

    // Adds a table that is rebuilt of the last one that is kept whole, and whose own changes begin there.
    fn push_told(&mut self, table: &Table, start: usize) -> Result<(), NoMemory>
        requires { 0 < length self.old.wholes.items }
        ensures { OnOk result (IsToldAdded self.old self.new table.now.k start) }
    {
        self.entries.push(Entry {
            k: table.k(),
            whole: self.wholes.len() - 1,
            from: self.from,
            start,
            end: self.changes.len(),
        })?;
        Ok(())
    }

    // Whether as many changes lie behind the last table that is kept whole as that one has numbers.
    fn is_due(&self) -> bool {
        self.changes.len().saturating_sub(self.from) >= self.room
    }

    /// Adds a table behind the last one, where there is one.
    pub(crate) fn push_behind(
        &mut self,
        alloc: Global,
        last: &Option<Table>,
        table: &Table,
    ) -> Result<(), NoMemory>
        requires listed { IsListed self.old last.now }
        requires alike { IfSome (last_table (tables_in self.old)) (λ last. AreAlike last table.now) }
        ensures listed { OnOk result (IsListed self.new (Some table.now)) }
        ensures tables { OnOk result (tables_in self.new ≡ tables_in self.old ++ table.now ∷ []) }
    {
        let numbers = number_count(table);
        match last {
            None => self.push_first(alloc, table, numbers),
            Some(last) => self.push_next(alloc, last, table, numbers),
        }
    }

    // Adds the first table, of so many numbers.
    fn push_first(&mut self, alloc: Global, table: &Table, numbers: usize) -> Result<(), NoMemory>
        requires listed { IsListed self.old None }
        requires formed { IsWellFormed table.now }
        ensures listed { OnOk result (IsListed self.new (Some table.now)) }
        ensures tables { OnOk result (tables_in self.new ≡ tables_in self.old ++ table.now ∷ []) }
    {
        let start = self.changes.len();
        self.push_whole(alloc, table, numbers, start)
    }

    // Adds a table of so many numbers behind the last one.
    fn push_next(
        &mut self,
        alloc: Global,
        last: &Table,
        table: &Table,
        numbers: usize,
    ) -> Result<(), NoMemory>
        requires listed { IsListed self.old (Some last.now) }
        requires formed { IsWellFormed table.now }
        requires alike { AreAlike last.now table.now }
        ensures listed { OnOk result (IsListed self.new (Some table.now)) }
        ensures tables { OnOk result (tables_in self.new ≡ tables_in self.old ++ table.now ∷ []) }
    {
        let start = self.changes.len();
        push_changes(&mut self.changes, last, table)?;
        if self.is_due() {
            self.push_whole(alloc, table, numbers, start)
        } else {
            self.push_told(table, start)
        }
    }
}

// How many numbers a table keeps, its units among them.
fn number_count(table: &Table) -> usize
    ensures { IsWellFormed table.now }
{
    (table.units() as usize)
        .saturating_add(table.pi().len())
        .saturating_add(table.mu().len())
        .saturating_add(table.ramps().len())
}
