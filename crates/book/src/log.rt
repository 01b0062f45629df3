//! The log of a book, with what finds the entries of a node without a walk over the others.

ghost use Rattle.std.specs.Prelude.{◌≡◌, IsTrue, false, Some, slice_get};
ghost use Rattle.book.specs.inside.Chains.{IsElsewhere};

use branch_tree::Entry;
use dual_model::Table;
use search_machine::tables;
use std::alloc::Global;
use std::marker::Model;
use uc_model::{List, NoMemory};

/// The entries, and of each the one before it of the same node; of each node its newest entry and how many it has. An entry is named by
/// one more than its place, and 0 names none. Of each node also the greatest scale of its entries' tables, at least 0: a table of a greater
/// one is fresh there, which is the usual case.
///
/// Contracts see the entries, for how many there is room, for how many nodes, and these scales.
#[derive(Drop)]
pub(crate) struct Log {
    entries: Vec<Entry>,
    previous: Vec<u32>,
    newest: Vec<u32>,
    counts: Vec<u32>,
    greatest: Vec<i64>,
}

impl Model for Log {
    ghost use Rattle.book.specs.inside.Chains.{LogView};

    ghost Value = { LogView };

    ghost use Rattle.std.specs.Prelude.{◌≡◌, ◌<◌, ◌^◌, vec_len, vec_capacity};
    ghost use Rattle.book.specs.inside.Chains.{AreLinked};

    ghost view = { λ a. record { entries = a.entries.items; room = vec_capacity a.entries; nodes = vec_len a.newest; greatest = a.greatest.items } };

    ghost invariant = { λ a. AreLinked a.entries.items a.previous.items a.newest.items a.counts.items
        × (vec_capacity a.previous ≡ vec_capacity a.entries) × (vec_capacity a.entries < 2 ^ 32) × (vec_len a.greatest ≡ vec_len a.newest) };
}

impl Log {
    ghost use Rattle.std.specs.Prelude.{◌≡◌, ◌↔◌, ◌<◌, ◌<ℤ◌, ◌++◌, ◌∷◌, [], pos, All, IsTrue, IfOk, length, replicate, slice_index_or};
    ghost use Rattle.search_machine.specs.Prelude.{entries_of};
    ghost use Rattle.book.specs.inside.Chains.{IsElsewhere, raised};

    /// No entries, with room for so many, over so many nodes.
    pub(crate) fn with_room(alloc: Global, room: u32, nodes: u32) -> Result<Log, NoMemory>
        ensures { IfOk result (λ log. log ≡ record { entries = []; room = room; nodes = nodes; greatest = replicate nodes (pos 0) }) }
    {
        let entries = Vec::with_capacity(alloc, room as usize)?;
        let previous = Vec::with_capacity(alloc, room as usize)?;
        let newest = vec![in alloc; 0; nodes as usize]?;
        let counts = vec![in alloc; 0; nodes as usize]?;
        let greatest = vec![in alloc; 0; nodes as usize]?;
        Ok(Log {
            entries,
            previous,
            newest,
            counts,
            greatest,
        })
    }

    /// How many there are.
    pub(crate) fn len(&self) -> u32
        ensures { result ≡ length self.now.entries }
    {
        self.entries.len() as u32
    }

    /// How many there are of the node of this number; of no node there are none.
    pub(crate) fn count(&self, node: u32) -> u32
        ensures { result ≡ length (entries_of self.now.entries node) }
    {
        match self.counts.get(node as usize) {
            Some(count) => *count,
            None => 0,
        }
    }

    /// Whether no entry of the node is at the table with a value of this kind.
    pub(crate) fn is_fresh(&self, tables: &[Table], node: u32, table: &Table, exact: bool) -> bool
        ensures { IsTrue result ↔ All (IsElsewhere tables.now table.now exact) (entries_of self.now.entries node) }
    {
        let mut link = match self.newest.get(node as usize) {
            Some(link) => *link,
            None => 0,
        };
        while link > 0 {
            let place = link as usize - 1;
            if is_at(&self.entries[place], tables, table, exact) {
                return false;
            }
            link = self.previous[place];
        }
        true
    }

    /// Whether the scale is above those of the tables of the node's entries.
    pub(crate) fn is_above(&self, node: u32, scale: i64) -> bool
        ensures { IsTrue result → slice_index_or self.now.greatest node (pos 0) <ℤ scale }
    {
        match self.greatest.get(node as usize) {
            Some(greatest) => scale > *greatest,
            None => false,
        }
    }

    /// Puts an entry behind the others, whose table has this scale.
    pub(crate) fn push(&mut self, entry: Entry, scale: i64)
        requires room { length self.old.entries < self.old.room }
        requires node { entry.node < self.old.nodes }
        ensures { self.new ≡ record self.old {
          entries = self.old.entries ++ entry ∷ [];
          greatest = raised self.old.greatest entry.node scale;
        } }
    {
        let node = entry.node as usize;
        self.previous.push_reserved(self.newest[node]);
        self.entries.push_reserved(entry);
        self.newest[node] = self.entries.len() as u32;
        self.counts[node] += 1;
        self.greatest[node] = self.greatest[node].max(scale);
    }

    /// The entries by themselves.
    pub(crate) fn into_entries(self) -> List<Entry>
        ensures { result ≡ self.entries }
    {
        let Log {
            entries,
            previous: _,
            newest: _,
            counts: _,
            greatest: _,
        } = self;
        List::from_vec(entries)
    }
}

// Whether the entry is at the table with a value of this kind.
fn is_at(entry: &Entry, tables: &[Table], table: &Table, exact: bool) -> bool
    ensures at { IsTrue result → (entry.now.exact ≡ exact) × (slice_get tables.now entry.now.table ≡ Some table.now) }
    ensures elsewhere { result ≡ false → IsElsewhere tables.now table.now exact entry.now }
{
    entry.exact == exact && tables::is_table(tables, entry.table, table)
}
