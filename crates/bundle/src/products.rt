//! The products of cuts' slopes with each other, over the prices that count, kept from move to move.

use crate::cuts::Cut;
use crate::numbers::at;
use std::alloc::Global;
use uc_model::NoMemory;

/// The products, a row for each cut, and the places of the prices that count in them, in rising order. Sums go round at the ends of their
/// type, so that a price can be taken out of them again.
#[derive(Drop)]
pub(crate) struct Products {
    pub rows: Vec<Vec<i64>>,
    counted: Vec<usize>,
}

impl Products {
    /// The products of no cuts.
    pub(crate) fn none(alloc: Global) -> Products {
        Products {
            rows: Vec::new(alloc),
            counted: Vec::new(alloc),
        }
    }

    /// Counts the prices at these places, in rising order, and no others.
    pub(crate) fn count(
        &mut self,
        alloc: Global,
        cuts: &[Cut],
        active: Vec<usize>,
    ) -> Result<(), NoMemory> {
        if self.rows.len() != cuts.len() {
            self.forget(alloc, cuts.len())?;
        }
        let changes = changes(alloc, &self.counted, &active)?;
        let mut slopes = vec![in alloc; 0_i64; cuts.len()]?;
        for (i, counts) in &changes {
            self.turn(cuts, *i, *counts, &mut slopes);
        }
        self.counted = active;
        Ok(())
    }

    // As many rows of noughts, in which no price counts.
    fn forget(&mut self, alloc: Global, cuts: usize) -> Result<(), NoMemory> {
        self.rows.clear();
        for _ in 0..cuts {
            self.rows.push(vec![in alloc; 0_i64; cuts]?)?;
        }
        self.counted.clear();
        Ok(())
    }

    // Counts price i, or counts it no longer. The cuts' slopes in it go into a list that is lent.
    fn turn(&mut self, cuts: &[Cut], i: usize, counts: bool, slopes: &mut [i64]) {
        for k in 0..slopes.len().min(cuts.len()) {
            slopes[k] = at(&cuts[k].slopes, i);
        }
        for (row, slope) in self.rows.iter_mut().zip(slopes.iter()) {
            let slope = if counts { *slope } else { slope.wrapping_neg() };
            add_multiple(row, slopes, slope);
        }
    }

    /// Adds the row of the last of the cuts, which is new.
    pub(crate) fn push(&mut self, alloc: Global, cuts: &[Cut]) -> Result<(), NoMemory> {
        let Some(newest) = cuts.last() else {
            return Ok(());
        };
        let mut row = Vec::new(alloc);
        for cut in cuts {
            row.push(product_over(&self.counted, &newest.slopes, &cut.slopes))?;
        }
        for k in 0..self.rows.len().min(row.len()) {
            self.rows[k].push(row[k])?;
        }
        self.rows.push(row)?;
        Ok(())
    }

    /// Gives up a cut.
    pub(crate) fn give_up(&mut self, k: usize) {
        if k < self.rows.len() {
            let _ = self.rows.remove(k);
        }
        for row in self.rows.iter_mut() {
            if k < row.len() {
                let _ = row.remove(k);
            }
        }
    }

    /// The product of two cuts.
    pub(crate) fn of(&self, k: usize, j: usize) -> i64 {
        at(self.row(k), j)
    }

    /// The products of a cut.
    pub(crate) fn row(&self, k: usize) -> &[i64] {
        match self.rows.get(k) {
            Some(row) => row,
            None => &[],
        }
    }
}

// The prices that are to count and don't, or the other way round, and whether each is to, by places in rising order.
fn changes(
    alloc: Global,
    counted: &[usize],
    active: &[usize],
) -> Result<Vec<(usize, bool)>, NoMemory> {
    let mut changes = Vec::new(alloc);
    let (mut k, mut j) = (0_usize, 0_usize);
    for _ in 0..counted.len().saturating_add(active.len()) {
        match (counted.get(k), active.get(j)) {
            (Some(was), Some(is)) if *was == *is => {
                k = k.saturating_add(1);
                j = j.saturating_add(1);
            }
            (Some(was), Some(is)) if *is < *was => {
                changes.push((*is, true))?;
                j = j.saturating_add(1);
            }
            (Some(was), _) => {
                changes.push((*was, false))?;
                k = k.saturating_add(1);
            }
            (None, Some(is)) => {
                changes.push((*is, true))?;
                j = j.saturating_add(1);
            }
            (None, None) => break,
        }
    }
    Ok(changes)
}

// The product of two cuts' slopes over these prices.
fn product_over(places: &[usize], first: &[i64], second: &[i64]) -> i64 {
    let mut sum: i64 = 0;
    for i in places {
        sum = sum.wrapping_add(at(first, *i).wrapping_mul(at(second, *i)));
    }
    sum
}

/// Adds numbers times a weight.
pub(crate) fn add_multiple(sums: &mut [i64], numbers: &[i64], weight: i64) {
    for i in 0..sums.len().min(numbers.len()) {
        sums[i] = sums[i].wrapping_add(weight.wrapping_mul(numbers[i]));
    }
}
