//! The prices that a step can move.

use crate::cuts::Cut;
use crate::numbers::at;
use std::alloc::Global;
use uc_model::NoMemory;

/// The prices that a step can move: their places, in rising order, where they stand, and each cut's slopes in them. The others stand at 0,
/// may not be below it, and by no cut the bound rises with them: most prices of ramps do.
#[derive(Drop)]
pub(crate) struct Field {
    pub places: Vec<usize>,
    pub prices: Vec<i64>,
    pub slopes: Vec<Vec<i64>>,
}

impl Field {
    /// The field of these cuts around a centre, of whose prices so many may be below 0, which come first. The only error is `NoMemory`.
    pub(crate) fn of(
        alloc: Global,
        cuts: &[Cut],
        center: &[i64],
        free: usize,
    ) -> Result<Field, NoMemory> {
        let mut places = Vec::new(alloc);
        let highest = highest(alloc, cuts, center)?;
        for i in 0..highest.len() {
            if i < free || highest[i] > 0 {
                places.push(i)?;
            }
        }
        let prices = entries(alloc, center, &places)?;
        let mut slopes = Vec::new(alloc);
        for cut in cuts {
            slopes.push(entries(alloc, &cut.slopes, &places)?)?;
        }
        Ok(Field {
            places,
            prices,
            slopes,
        })
    }
}

// The greatest of each price and the cuts' slopes in it.
fn highest(alloc: Global, cuts: &[Cut], center: &[i64]) -> Result<Vec<i64>, NoMemory> {
    let mut highest = center.to_vec(alloc)?;
    for cut in cuts {
        let slopes = cut.slopes.as_slice();
        for i in 0..highest.len().min(slopes.len()) {
            highest[i] = highest[i].max(slopes[i]);
        }
    }
    Ok(highest)
}

// The entries of a list at these places.
fn entries(alloc: Global, numbers: &[i64], places: &[usize]) -> Result<Vec<i64>, NoMemory> {
    let mut entries = Vec::with_capacity(alloc, places.len())?;
    for i in places {
        entries.push(at(numbers, *i))?;
    }
    Ok(entries)
}
