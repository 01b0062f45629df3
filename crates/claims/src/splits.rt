//! The cell that a node is split on, where its claim doesn't close it.

ghost use Rattle.std.specs.Prelude.{◌≡◌, ◌≤◌, true, None};
ghost use Rattle.uc_model.specs.Prelude.{IsLawfulInstance};
ghost use Rattle.decided_nodes.specs.Decided.{DecidesEach};

use crate::branching::most_divided;
use decided_nodes::{decides, free_cell};
use dual_model::Node;
use search_machine::limits::NODE_ENTRIES;
use uc_model::{Instance, LEAST_DIVIDED_SHARE};

/// What an ascent tells of where to split its node: how often each unit was on in each period, unit by unit, or nothing; and a cell, a unit
/// and a period from 0, where one was sought.
#[derive(Clone, Copy)]
pub struct Hints<'a> {
    pub shares: &'a [i64],
    pub cell: Option<(u32, u32)>,
}

/// With how many entries of the log a node is split on a cell that its ascent divides, and with how many on any cell, though its share is
/// nearly whole.
#[derive(Clone, Copy)]
pub struct Branching {
    pub ripe: u32,
    pub late: u32,
}

/// The cell, a thermal unit and a period from 0, that a node is split on which its claim doesn't close; none where it is to be left whole. Of
/// the node the decisions are known, and how many entries the log had of it before: it is split where the hints say on which cell, and
/// where it had all the entries that it may have. Where it is both ripe and late it is left whole only if it decides each cell.
pub fn split_cell(
    instance: &Instance,
    path: &Node,
    had: u32,
    branching: Branching,
    hints: Hints,
) -> Option<(u32, u32)>
    requires { IsLawfulInstance instance.now }
    ensures { branching.ripe ≤ had → branching.late ≤ had → result ≡ None → DecidesEach instance.now path.now }
{
    if had >= branching.ripe {
        if let Some(cell) = undecided(path, hints.cell) {
            return Some(cell);
        }
        if let Some(cell) = divided(instance, path, hints.shares, had >= branching.late) {
            return Some(cell);
        }
    }
    if (had as usize).saturating_add(1) < NODE_ENTRIES {
        return None;
    }
    free_cell(instance, path)
}

// The cell, where it is undecided.
fn undecided(path: &Node, cell: Option<(u32, u32)>) -> Option<(u32, u32)> {
    let (g, t) = cell?;
    if decides(path, g, t) {
        None
    } else {
        Some((g, t))
    }
}

// The cell that the shares of the ascent divide most; late it may be one that they divide hardly at all, and at last the first undecided one.
fn divided(instance: &Instance, path: &Node, shares: &[i64], late: bool) -> Option<(u32, u32)>
    requires { IsLawfulInstance instance.now }
    ensures { late ≡ true → result ≡ None → DecidesEach instance.now path.now }
{
    let least = if late { 0 } else { LEAST_DIVIDED_SHARE };
    match most_divided(instance, path, shares, least) {
        Some(cell) => Some(cell),
        None if late => free_cell(instance, path),
        None => None,
    }
}
