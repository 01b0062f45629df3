//! The answer of a search.

ghost use Rattle.std.specs.Prelude.{◌≡◌, ◌≤◌};
ghost use Rattle.branch_tree.specs.Closing.{is_within_gap};

use crate::layout::Layout;
use crate::tree::Tree;
use dual_model::Table;
use uc_model::tolerance::{WHOLE_GAP, tolerance};
use uc_model::{List, Printed, Stuck};

/// What the evaluation of a node at a table gave.
#[derive(Clone, Copy, Debug)]
pub enum Outcome {
    /// The value of the node at the table: VE where the entry is exact, else V.
    Value(i128),
    /// The first thermal unit, from 0, that has no schedule of its own at the node where the entry is exact, else no pattern.
    Empty(u32),
}

/// An entry of the log: claim number `unit`, from 1, was evaluated by the worker on the node at the table
/// of that number, each from 0, by VE where it is exact, else by V.
#[derive(Clone, Copy)]
pub struct Entry {
    pub unit: u32,
    pub worker: u8,
    pub node: u32,
    pub table: u32,
    pub exact: bool,
    pub outcome: Outcome,
}

/// What a search found: a schedule and its cost in micro-dollars where there is one, the tree, its tables,
/// the log of evaluations, and why the commitment with the most on periods could not be dispatched where
/// this is the reason that no schedule was found.
#[derive(Drop)]
pub struct Found {
    pub schedule: Option<(Printed, i64)>,
    pub tree: Tree,
    pub tables: List<Table>,
    pub log: List<Entry>,
    pub most_on: Option<Stuck>,
    pub layout: Layout,
}

/// Whether a cost is above the bound by no more than `gap` parts per million of the cost's size.
pub fn is_within_gap(cost: &i64, bound: &Option<i128>, gap: u32) -> bool
    requires { gap ≤ WHOLE_GAP }
    ensures { result ≡ is_within_gap cost.now bound.now gap }
{
    match bound {
        Some(bound) => i128::from(*cost) - i128::from(tolerance(*cost, gap)) <= *bound,
        None => false,
    }
}

impl Found {
    ghost use Rattle.branch_tree.specs.Closing.{is_closed, status_of};

    /// Whether the search is closed: it found a schedule whose cost is above the bound by no more than `gap`
    /// parts per million of the cost's size.
    pub fn is_closed(&self, gap: u32) -> bool
        requires { gap ≤ WHOLE_GAP }
        ensures { result ≡ is_closed self.now gap }
    {
        match &self.schedule {
            Some((_, cost)) => is_within_gap(cost, &self.tree.bound(), gap),
            None => false,
        }
    }

    /// The exit status of a run that found this: 3 where there is no schedule, 2 where none was found, 0 where
    /// the search is closed, and 1 where it isn't.
    pub fn status(&self, gap: u32) -> u8
        requires { gap ≤ WHOLE_GAP }
        ensures { result ≡ status_of self.now gap }
    {
        match (&self.schedule, self.tree.bound()) {
            (_, None) => 3,
            (None, Some(_)) => 2,
            (Some(_), Some(_)) => u8::from(!self.is_closed(gap)),
        }
    }
}
