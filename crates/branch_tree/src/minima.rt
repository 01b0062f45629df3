//! A tournament of minima: values in a list, and the least of them at hand.

ghost use Rattle.std.specs.Prelude.{◌≡◌, ◌<◌, ◌∷◌, ◌++◌, [], None, IfOk, length, slice_set, slice_index_or, vec_len, vec_capacity};
ghost use Rattle.branch_tree.specs.StoredTree.{lesser_bound};
ghost use Rattle.branch_tree.specs.inside.Minima.{lesser_at, IsMendedBut, IsTournament, IsLeastOf};

use std::alloc::Global;
use std::marker::Model;
use uc_model::NoMemory;

/// Values at places from 0, each a number or none. Just below place k are the places 2 k + 1 and 2 k + 2, and the entry of
/// a place is the least of the values there and below it: that of place 0 the least of all. A changed value mends the
/// entries from its place upwards, one for each time that the number of places can be halved.
///
/// Contracts see the values, and for how many there is room.
#[derive(Drop)]
pub(crate) struct Minima {
    values: Vec<Option<i128>>,
    entries: Vec<Option<i128>>,
}

impl Model for Minima {
    ghost use Rattle.branch_tree.specs.inside.Minima.{MinimaView};

    ghost Value = { MinimaView };

    ghost use Rattle.std.specs.Prelude.{◌≡◌, vec_capacity};
    ghost use Rattle.branch_tree.specs.inside.Minima.{IsTournament};

    ghost view = { λ minima. record { values = minima.values.items; room = vec_capacity minima.values } };

    ghost invariant = { λ minima. IsTournament minima.values.items minima.entries.items
        × (vec_capacity minima.entries ≡ vec_capacity minima.values) };
}

// The lesser of two values, where there is one.
fn lesser(a: &Option<i128>, b: &Option<i128>) -> Option<i128>
    ensures { result ≡ lesser_bound a.now b.now }
{
    match (a, b) {
        (None, _) => *b,
        (_, None) => *a,
        (Some(a), Some(b)) => Some(*a.min(b)),
    }
}

// The entry of a place; none past the last.
fn entry_at(entries: &[Option<i128>], place: usize) -> Option<i128>
    ensures { result ≡ slice_index_or entries.now place None }
{
    if place < entries.len() {
        entries[place]
    } else {
        None
    }
}

// Makes the entry of a place anew, of its value and of the entries just below it.
fn renew(values: &[Option<i128>], entries: &mut Vec<Option<i128>>, place: usize)
    requires value { place < length values.now }
    requires entry { place < vec_len entries.old }
    ensures entries { entries.new.items ≡ slice_set entries.old.items place (lesser_at values.now entries.old.items place) }
    ensures capacity { vec_capacity entries.new ≡ vec_capacity entries.old }
{
    let left = entry_at(entries, 2 * place + 1);
    let right = entry_at(entries, 2 * place + 2);
    entries[place] = lesser(&values[place], &lesser(&left, &right));
}

// Mends the entries from a place upwards.
fn mend(values: &[Option<i128>], entries: &mut Vec<Option<i128>>, place: usize)
    requires { IsMendedBut values.now entries.old.items place }
    ensures entries { IsTournament values.now entries.new.items }
    ensures capacity { vec_capacity entries.new ≡ vec_capacity entries.old }
{
    let mut reached = place;
    while reached > 0 {
        renew(values, entries, reached);
        reached = (reached - 1) / 2;
    }
    renew(values, entries, 0);
}

impl Minima {
    /// No values, with room for `room`. The only error is `NoMemory`.
    pub(crate) fn with_room(alloc: Global, room: usize) -> Result<Minima, NoMemory>
        ensures { IfOk result (λ minima. minima ≡ record { values = []; room = room }) }
    {
        let values = Vec::with_capacity(alloc, room)?;
        let entries = Vec::with_capacity(alloc, room)?;
        Ok(Minima { values, entries })
    }

    /// Adds a value behind the others.
    pub(crate) fn push(&mut self, value: Option<i128>)
        requires { length self.old.values < self.old.room }
        ensures { self.new ≡ record self.old { values = self.old.values ++ value ∷ [] } }
    {
        let place = self.values.len();
        self.values.push_reserved(value);
        self.entries.push_reserved(None);
        mend(&self.values, &mut self.entries, place);
    }

    /// Writes another value at a place.
    pub(crate) fn set(&mut self, place: usize, value: Option<i128>)
        requires { place < length self.old.values }
        ensures { self.new ≡ record self.old { values = slice_set self.old.values place value } }
    {
        self.values[place] = value;
        mend(&self.values, &mut self.entries, place);
    }

    /// The least of the values; none where each of them is.
    pub(crate) fn least(&self) -> Option<i128>
        ensures { IsLeastOf self.now.values result }
    {
        entry_at(&self.entries, 0)
    }
}
