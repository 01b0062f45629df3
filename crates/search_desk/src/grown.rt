//! What a search over the tree leaves.

use branch_tree::{Entry, Tree};
use dual_model::Table;
use uc_model::{List, Printed};

/// The tree with its tables and its log, and the best schedule with its cost in micro-dollars.
#[derive(Drop)]
pub struct Grown {
    pub tree: Tree,
    pub tables: List<Table>,
    pub log: List<Entry>,
    pub best: Option<(Printed, i64)>,
}
