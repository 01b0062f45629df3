//! The value of a node at a table, with what each unit adds to it.

use uc_model::{List, Pattern};

/// The value of a node: the total, at the scale of the table, and for each thermal unit what it adds (its value and
/// its constant) and a pattern that attains its value.
#[derive(Drop)]
pub struct Valued {
    pub total: i128,
    pub parts: List<i128>,
    pub patterns: List<Pattern>,
}
