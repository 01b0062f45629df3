//! Which cells are undecided at a node, found along its path without memory.

ghost use Rattle.std.specs.Prelude.{◌≡◌, ◌==◌, ◌&&◌, ℕ, ◌<◌, IsTrue, IfSome, None, length};
ghost use Rattle.branch_tree.specs.Places.{AreWellPlaced, tree_from};
ghost use Rattle.branch_tree.specs.inside.Paths.{is_undecided_at};

use crate::places::{Place, above};
use dual_model::Fixing;

// Whether the decision is on the cell.
fn decides(fixing: Fixing, g: u32, t: u32) -> bool
    ensures { result ≡ ((fixing.g == g) && (fixing.t == t)) }
{
    fixing.g == g && fixing.t == t
}

/// Whether the path to the node of this number leaves the cell undecided.
pub(crate) fn is_undecided(places: &[Place], node: u32, g: u32, t: u32) -> bool
    requires placed { AreWellPlaced places.now }
    requires within { node < length places.now }
    ensures { result ≡ is_undecided_at (tree_from places.now 0) node g t }
{
    let mut reached = node;
    while reached != 0 {
        let step = above(places, reached);
        if decides(step.1, g, t) {
            return false;
        }
        reached = step.0;
    }
    true
}

// The first of so many periods whose cell of the unit is undecided at the node.
fn undecided_period(places: &[Place], node: u32, g: u32, periods: u32) -> Option<u32>
    requires placed { AreWellPlaced places.now }
    requires within { node < length places.now }
    ensures some { IfSome result (λ t. (t < periods) × IsTrue (is_undecided_at (tree_from places.now 0) node g t)) }
    ensures none { result ≡ None → (t : ℕ) → t < periods → ¬ IsTrue (is_undecided_at (tree_from places.now 0) node g t) }
{
    for t in 0..periods {
        if is_undecided(places, node, g, t) {
            return Some(t);
        }
    }
    None
}

/// The first cell of so many thermal units and periods that is undecided at the node of this number.
pub(crate) fn first_undecided(
    places: &[Place],
    node: u32,
    units: u32,
    periods: u32,
) -> Option<(u32, u32)>
    requires placed { AreWellPlaced places.now }
    requires within { node < length places.now }
    ensures some { IfSome result (λ cell. (cell.0 < units) × (cell.1 < periods) × IsTrue (is_undecided_at (tree_from places.now 0) node cell.0 cell.1)) }
    ensures none { result ≡ None → (g t : ℕ) → g < units → t < periods → ¬ IsTrue (is_undecided_at (tree_from places.now 0) node g t) }
{
    for g in 0..units {
        if let Some(t) = undecided_period(places, node, g, periods) {
            return Some((g, t));
        }
    }
    None
}
