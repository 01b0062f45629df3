//! Lists: an entry that may be missing, what lies behind a place, and entries that are added.

use std::alloc::Global;
use uc_model::NoMemory;

/// The entry of a list, and 0 past its end.
pub fn at(numbers: &[i64], i: usize) -> i64 {
    if i < numbers.len() { numbers[i] } else { 0 }
}

/// The entries of a list from a place on. An iterator would step there one by one.
pub fn behind(numbers: &[i64], first: usize) -> &[i64] {
    if first < numbers.len() {
        &numbers[first..]
    } else {
        &[]
    }
}

/// Adds an entry to a list. The only error is `NoMemory`.
pub fn put<T: Copy>(list: &mut Vec<T>, entry: T) -> Result<(), NoMemory> {
    list.push(entry)?;
    Ok(())
}

/// Gives a list so many entries, of which new ones are the same. The only error is `NoMemory`.
pub fn stretch<T: Copy>(list: &mut Vec<T>, count: usize, entry: T) -> Result<(), NoMemory> {
    list.resize(count, entry)?;
    Ok(())
}

/// Adds so many rows of so many entries. The only error is `NoMemory`.
pub(crate) fn push_rows<T: Copy>(
    alloc: Global,
    entry: T,
    rows: usize,
    count: usize,
    table: &mut Vec<Vec<T>>,
) -> Result<(), NoMemory> {
    for _ in 0..rows {
        table.push(vec![in alloc; entry; count]?)?;
    }
    Ok(())
}
