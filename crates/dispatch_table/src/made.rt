//! What the making of a table answers.

use dispatch_rules::{Amount, LimitAt};
use pivot_run::{Tableau, Wide};

/// The table of a commitment's dispatch at its start, with what its columns and rows stand for.
#[derive(Debug, Drop)]
pub struct Start {
    /// Its rows are those of the limits, of the sum of the artificial columns and of the cost.
    pub table: Tableau,
    /// In the order of their columns, which come first.
    pub amounts: Vec<Amount>,
    /// In the order of their rows.
    pub limits: Vec<LimitAt>,
    /// The right side of each limit, in watts.
    pub rights: Vec<i64>,
    /// By which costs are multiplied to be whole.
    pub scale: i128,
    /// How many columns may enter: those of the amounts and the slacks.
    pub free: usize,
}

/// The start, or the product that isn't below the limit in size.
#[derive(Debug, Drop)]
pub enum Made {
    Start(Start),
    Wide(Wide),
}
