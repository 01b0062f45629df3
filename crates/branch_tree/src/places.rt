//! The flat list of a tree's nodes: a place a node, at its number, the children after their parent; and the paths, taken upwards.

ghost use Rattle.std.specs.Prelude.{◌≡◌, ◌≢◌, ◌↔◌, ℕ, suc, ◌+◌, ◌-◌, ◌<◌, ◌≤◌, ◌^◌, ◌==◌, ◌∷◌, ◌++◌, [], Some, IfOk, IsTrue, length, slice_get, slice_index_or, slice_set, vec_len, vec_capacity};
ghost use Rattle.branch_tree.specs.NumberedTree.{node_at};
ghost use Rattle.branch_tree.specs.StoredTree.{spot_bound};
ghost use Rattle.branch_tree.specs.Places.{Place, AreWellPlaced, IsInner, tree_from};
ghost use Rattle.branch_tree.specs.inside.Paths.{ComesFrom};
ghost use Rattle.branch_tree.specs.declared.tree.Spot.TheVariants as spot;

use crate::tree::{Leaf, Spot};
use dual_model::Fixing;
use std::alloc::Global;
use uc_model::NoMemory;

/// A node in the list: the number of its parent, that of the root being 0, and what stands there.
#[derive(Clone, Copy)]
pub(crate) struct Place {
    pub parent: u32,
    pub spot: Spot,
}

/// Makes the node of this number a split. Its children, put at the end, store what it stored.
pub(crate) fn split(places: &mut Vec<Place>, node: u32, g: u32, t: u32) -> (u32, u32)
    requires within { node < vec_len places.old }
    requires room { vec_len places.old + 2 ≤ vec_capacity places.old }
    requires countable { vec_capacity places.old < 2 ^ 32 }
    ensures off { result.0 ≡ vec_len places.old }
    ensures on { result.1 ≡ suc (vec_len places.old) }
    ensures places { (was : Place) → slice_get places.old.items node ≡ Some was
        → places.new.items ≡ slice_set places.old.items node (record was { spot = spot.Inner g t result.0 result.1 })
        ++ (record { parent = node; spot = was.spot }) ∷ (record { parent = node; spot = was.spot }) ∷ [] }
    ensures capacity { vec_capacity places.new ≡ vec_capacity places.old }
{
    let off = places.len() as u32;
    let on = off + 1;
    let place = places[node as usize];
    places[node as usize] = Place {
        parent: place.parent,
        spot: Spot::Inner { g, t, off, on },
    };
    let child = Place {
        parent: node,
        spot: place.spot,
    };
    places.push_reserved(child);
    places.push_reserved(child);
    (off, on)
}

/// Stores this leaf at the node of this number.
pub(crate) fn store(places: &mut Vec<Place>, node: u32, leaf: Leaf)
    requires { node < vec_len places.old }
    ensures places { (was : Place) → slice_get places.old.items node ≡ Some was
        → places.new.items ≡ slice_set places.old.items node (record was { spot = spot.Leaf leaf }) }
    ensures capacity { vec_capacity places.new ≡ vec_capacity places.old }
{
    places[node as usize].spot = Spot::Leaf(leaf);
}

/// The bound stored at a node: none where it is a split or excluded.
pub(crate) fn bound_at(spot: &Spot) -> Option<i128>
    ensures { result ≡ spot_bound spot.now }
{
    match spot {
        Spot::Leaf(Leaf::Live { value, .. } | Leaf::Bound { value, .. }) => Some(*value),
        Spot::Leaf(
            Leaf::Ray { .. } | Leaf::Empty { .. } | Leaf::ExactRay { .. } | Leaf::ExactEmpty { .. },
        )
        | Spot::Inner { .. } => None,
    }
}

// By which decision the child of this number comes from the split.
fn decision(split: &Spot, child: u32) -> Fixing
    requires { IsInner split.now }
    ensures { (g t off on : ℕ) → split.now ≡ spot.Inner g t off on → result ≡ record { g = g; t = t; on = on == child } }
{
    match split {
        Spot::Inner { g, t, on, .. } => Fixing {
            g: *g,
            t: *t,
            on: *on == child,
        },
        Spot::Leaf(_) => unreachable!(),
    }
}

/// The number of the parent of a node other than the root, and by which decision the node comes from it.
pub(crate) fn above(places: &[Place], node: u32) -> (u32, Fixing)
    requires placed { AreWellPlaced places.now }
    requires within { node < length places.now }
    requires below { node ≢ 0 }
    ensures { ComesFrom (tree_from places.now 0) result.0 node result.1 }
{
    let parent = places[node as usize].parent;
    (parent, decision(&places[parent as usize].spot, node))
}

/// The decisions on the path from the root to the node of this number, by way of the parents.
pub(crate) fn path(alloc: Global, places: &[Place], node: u32) -> Result<Vec<Fixing>, NoMemory>
    requires placed { AreWellPlaced places.now }
    requires within { node < length places.now }
    ensures { IfOk result (λ path. node_at (tree_from places.now 0) node ≡ Some (record { fixings = path.items })) }
{
    let mut path = Vec::new(alloc);
    let mut reached = node;
    while reached != 0 {
        let step = above(places, reached);
        path.push(step.1)?;
        reached = step.0;
    }
    path.reverse();
    Ok(path)
}

// Whether the last of the first `count` decisions is this one.
fn ends_with(fixings: &[Fixing], count: usize, last: Fixing) -> bool
    requires { count ≤ length fixings.now }
    ensures { IsTrue result ↔ ((0 < count) × (slice_index_or fixings.now (count - 1) last ≡ last)) }
{
    count > 0 && fixings[count - 1] == last
}

/// Whether these are the decisions on the path from the root to the node of this number.
pub(crate) fn is_path(places: &[Place], node: u32, fixings: &[Fixing]) -> bool
    requires placed { AreWellPlaced places.now }
    requires within { node < length places.now }
    ensures { IsTrue result ↔ (node_at (tree_from places.now 0) node ≡ Some (record { fixings = fixings.now })) }
{
    let mut reached = node;
    let mut left = fixings.len();
    while reached != 0 {
        let step = above(places, reached);
        if !ends_with(fixings, left, step.1) {
            return false;
        }
        reached = step.0;
        left -= 1;
    }
    left == 0
}
