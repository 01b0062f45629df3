//! The numbers of a row that aren't 0.
ghost use Rattle.std.specs.Prelude.{◌≡◌, ◌≢◌, true, false, ◌++◌, ◌+◌, ◌<◌, ◌≤◌, [], ◌∷◌, length, map, position, int_lt, neg_ℤ, pos, IfOk, IfSome, OnOk};
ghost use Rattle.pivot_run.specs.Rows.{IsLargest, IsSmall, reduced};
ghost use Rattle.pivot_run.specs.Driven.{is_some_number};
ghost use Rattle.pivot_run.specs.inside.Entries.{AreEntries, AreEntriesOf, IsSplit, Rise, column, column_within, number_at, with_column, with_number};

use crate::numbers::{first_negative, first_number, largest, negate, reduce};
use std::alloc::Global;
use uc_model::NoMemory;

/// Numbers and their columns, which rise. In all other columns the row is 0.
#[derive(Debug, Drop)]
pub struct Entries {
    pub columns: Vec<usize>,
    pub numbers: Vec<i128>,
}

impl Entries {
    /// None.
    pub(crate) fn new(alloc: Global) -> Entries
        ensures columns { result.columns.items ≡ [] }
        ensures numbers { result.numbers.items ≡ [] }
    {
        Entries {
            columns: Vec::new(alloc),
            numbers: Vec::new(alloc),
        }
    }

    /// Those of these numbers that aren't 0.
    pub(crate) fn of(alloc: Global, numbers: &[i128]) -> Result<Entries, NoMemory>
        requires { IsSmall numbers.now }
        ensures { IfOk result (λ entries. AreEntriesOf numbers.now entries.columns.items entries.numbers.items (length numbers.now)) }
    {
        let mut entries = Entries::new(alloc);
        for c in 0..numbers.len() {
            entries.add(c, &numbers[c])?;
        }
        Ok(entries)
    }

    /// Drops all.
    pub(crate) fn clear(&mut self)
        ensures columns { self.new.columns.items ≡ [] }
        ensures numbers { self.new.numbers.items ≡ [] }
    {
        self.columns.clear();
        self.numbers.clear();
    }

    /// Adds a number in a column, where it isn't 0.
    pub(crate) fn add(&mut self, column: usize, number: &i128) -> Result<(), NoMemory>
        ensures columns { OnOk result (self.new.columns.items ≡ with_column column number.now self.old.columns.items) }
        ensures numbers { OnOk result (self.new.numbers.items ≡ with_number number.now self.old.numbers.items) }
    {
        if *number != 0 {
            self.columns.push(column)?;
            self.numbers.push(*number)?;
        }
        Ok(())
    }

    /// The same, elsewhere.
    pub(crate) fn copy(&self) -> Result<Entries, NoMemory>
        ensures columns { IfOk result (λ copy. copy.columns.items ≡ self.now.columns.items) }
        ensures numbers { IfOk result (λ copy. copy.numbers.items ≡ self.now.numbers.items) }
    {
        Ok(Entries {
            columns: self.columns.clone()?,
            numbers: self.numbers.clone()?,
        })
    }

    /// The entry of the largest number in size, 0 where there is none.
    pub(crate) fn largest(&self) -> usize
        ensures { IsLargest self.now.numbers.items result }
    {
        largest(&self.numbers)
    }

    /// Divides the numbers by their greatest common divisor.
    pub(crate) fn reduce(&mut self)
        requires { IsSmall self.old.numbers.items }
        ensures columns { self.new.columns.items ≡ self.old.columns.items }
        ensures numbers { self.new.numbers.items ≡ reduced self.old.numbers.items }
        ensures small { IsSmall self.new.numbers.items }
    {
        reduce(&mut self.numbers);
    }

    /// Negates the numbers.
    pub(crate) fn negate(&mut self)
        requires { IsSmall self.old.numbers.items }
        ensures columns { self.new.columns.items ≡ self.old.columns.items }
        ensures numbers { self.new.numbers.items ≡ map neg_ℤ self.old.numbers.items }
        ensures small { IsSmall self.new.numbers.items }
    {
        negate(&mut self.numbers);
    }

    /// The column of the first number below 0, where it is one of the first columns, so many.
    pub(crate) fn first_negative(&self, count: usize) -> Option<usize>
        requires { AreEntries self.now.columns.items self.now.numbers.items }
        ensures column { result ≡ column_within self.now.columns.items count (position (λ x. int_lt x (pos 0)) self.now.numbers.items) }
        ensures within { IfSome result (λ c. c < count) }
    {
        self.column_within(first_negative(&self.numbers), count)
    }

    /// The column of the first number that isn't 0, where it is one of the first columns, so many.
    pub(crate) fn first_number(&self, count: usize) -> Option<usize>
        requires { AreEntries self.now.columns.items self.now.numbers.items }
        ensures column { result ≡ column_within self.now.columns.items count (position is_some_number self.now.numbers.items) }
        ensures within { IfSome result (λ c. c < count) }
    {
        self.column_within(first_number(&self.numbers), count)
    }

    /// How many of them stand before column `c`.
    pub(crate) fn before(&self, c: usize) -> usize
        requires { Rise self.now.columns.items }
        ensures { IsSplit self.now.columns.items result c }
    {
        let mut low = 0;
        let mut high = self.columns.len();
        while low < high {
            let middle = low + (high - low) / 2;
            if self.columns[middle] < c {
                low = middle + 1;
            } else {
                high = middle;
            }
        }
        low
    }

    /// The number in column `c`, before which so many stand.
    pub(crate) fn number(&self, k: usize, c: usize) -> &i128
        requires entries { AreEntries self.now.columns.items self.now.numbers.items }
        requires split { IsSplit self.now.columns.items k c }
        ensures { result.now ≡ number_at self.now.columns.items self.now.numbers.items c }
    {
        if self.stands_in(k, c) {
            &self.numbers[k]
        } else {
            &0
        }
    }

    /// How many stand before the column behind `c`, where so many stand before `c`.
    pub(crate) fn past(&self, k: usize, c: usize) -> usize
        requires entries { AreEntries self.now.columns.items self.now.numbers.items }
        requires split { IsSplit self.now.columns.items k c }
        ensures split { IsSplit self.now.columns.items result (c + 1) }
        ensures least { k ≤ result }
        ensures there { k < length self.now.columns.items → column self.now.columns.items k ≡ c → k < result }
    {
        if self.stands_in(k, c) { k + 1 } else { k }
    }

    // Whether entry `k` stands in column `c`.
    fn stands_in(&self, k: usize, c: usize) -> bool
        ensures there { result ≡ true → (k < length self.now.columns.items) × (column self.now.columns.items k ≡ c) }
        ensures elsewhere { result ≡ false → k < length self.now.columns.items → column self.now.columns.items k ≢ c }
    {
        k < self.columns.len() && self.columns[k] == c
    }

    // The column of an entry, where it is one of the first, so many.
    fn column_within(&self, k: Option<usize>, count: usize) -> Option<usize>
        requires { IfSome k (λ k. k < length self.now.columns.items) }
        ensures column { result ≡ column_within self.now.columns.items count k }
        ensures within { IfSome result (λ c. c < count) }
    {
        match k {
            Some(k) if self.columns[k] < count => Some(self.columns[k]),
            _ => None,
        }
    }
}
