//! What a move does to the tree and to the tickets.

ghost use Rattle.std.specs.Prelude.{◌≡◌, ◌≤◌, ◌+◌, ◌∷◌, [], suc};
ghost use Rattle.branch_tree.specs.Prelude.{node_count, IsOpenAt, IsFreeAt, IsPlaced};
ghost use Rattle.search_machine.specs.Moves.{IsFreeFor, children_by, unit_of, closed, split, live_leaf, bound_leaf, ray_leaf, empty_leaf, tree_after};

use crate::event::Move;
use crate::stored::Stored;
use branch_tree::{Leaf, Outcome, Tree};

/// The children that a move adds, of which the first would have this number.
pub fn children<'a>(action: &Move, both: &'a [u32; 2]) -> &'a [u32]
    ensures { result.now ≡ children_by both.now action.now }
{
    match action {
        Move::Split { .. } => &both[..],
        Move::Again | Move::Prune { .. } | Move::Ray | Move::Empty => &both[..0],
    }
}

// The unit that the outcome names, 0 where it names none.
fn unit_of(outcome: &Outcome) -> u32
    ensures { result ≡ unit_of outcome.now }
{
    match outcome {
        Outcome::Value(_) => 0,
        Outcome::Empty(g) => *g,
    }
}

// The open leaf that stores this.
fn live(stored: &Stored) -> Leaf
    ensures { result ≡ live_leaf stored.now }
{
    Leaf::Live {
        table: stored.table,
        value: stored.value,
        exact: stored.exact,
    }
}

// The closed leaf that stores this.
fn pruned(stored: &Stored) -> Leaf
    ensures { result ≡ bound_leaf stored.now }
{
    Leaf::Bound {
        table: stored.table,
        value: stored.value,
        exact: stored.exact,
    }
}

// The leaf that the ray of this number excludes, by a value of this kind.
fn by_ray(exact: bool, table: u32) -> Leaf
    ensures { result ≡ ray_leaf exact table }
{
    if exact {
        Leaf::ExactRay { table }
    } else {
        Leaf::Ray { table }
    }
}

// The leaf that unit g excludes, which is blocked there for values of this kind.
fn by_unit(exact: bool, g: u32) -> Leaf
    ensures { result ≡ empty_leaf exact g }
{
    if exact {
        Leaf::ExactEmpty { g }
    } else {
        Leaf::Empty { g }
    }
}

// Makes the open node store this, and splits it.
fn split(tree: &mut Tree, node: u32, stored: &Stored, g: u32, t: u32)
    requires placed { IsPlaced tree.old.nodes }
    requires live { IsOpenAt tree.old.nodes node }
    requires free { IsFreeAt tree.old node g t }
    requires room { node_count tree.old.nodes + 2 ≤ tree.old.room }
    ensures { tree.new ≡ split (closed tree.old node (live_leaf stored.now)) node g t }
{
    tree.close(node, live(stored));
    let _ = tree.split(node, g, t);
}

/// Makes a move on an open node that would store this, after an evaluation, of a value of this kind, at the table of this number.
pub fn make(
    tree: &mut Tree,
    node: u32,
    stored: &Stored,
    table: u32,
    exact: bool,
    outcome: &Outcome,
    action: &Move,
)
    requires placed { IsPlaced tree.old.nodes }
    requires live { IsOpenAt tree.old.nodes node }
    requires free { IsFreeFor tree.old node action.now }
    requires room { node_count tree.old.nodes + 2 ≤ tree.old.room }
    ensures { tree.new ≡ tree_after tree.old node stored.now table exact outcome.now action.now }
{
    match action {
        Move::Again => tree.close(node, live(stored)),
        Move::Split { g, t } => split(tree, node, stored, *g, *t),
        Move::Prune { .. } => tree.close(node, pruned(stored)),
        Move::Ray => tree.close(node, by_ray(exact, table)),
        Move::Empty => tree.close(node, by_unit(exact, unit_of(outcome))),
    }
}
