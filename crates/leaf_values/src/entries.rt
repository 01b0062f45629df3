//! What is kept of a table.

use dual_model::Fix;
use uc_model::Terms;

/// One thermal unit at a table: its terms, what the ramp rules add whatever its pattern, and its value for the decisions
/// `fix`, `None` where no pattern is as they say.
#[derive(Drop)]
pub struct UnitEntry {
    pub(crate) terms: Terms,
    pub(crate) constant: i128,
    pub(crate) fix: Fix,
    pub(crate) value: Option<i128>,
}

/// What is known of the exact value of one thermal unit at a table: nothing, or its value for the decisions `fix`, `None`
/// where it has no schedule of its own that is as they say.
#[derive(Clone, Copy)]
pub enum ExactEntry {
    Unsought,
    Sought { fix: Fix, value: Option<i128> },
}

/// The entries of an instance's thermal units at a table, what is known of their exact values, and what demand, reserves and
/// renewable units add there.
#[derive(Drop)]
pub struct TableEntries {
    pub(crate) units: Vec<UnitEntry>,
    pub(crate) exact: Vec<ExactEntry>,
    pub(crate) rest: i128,
}
