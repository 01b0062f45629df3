//! The order in which a tree is written.

ghost use Rattle.std.specs.Prelude.{◌≡◌, ◌<◌, [], ◌∷◌, ◌++◌, All, IfOk, OnOk, Some, true, false, option_to_list, slice_set, slice_index_or, vec_len, if◌then◌else◌};
ghost use Rattle.branch_tree.specs.NumberedTree.{numbers, children_of};
ghost use Rattle.branch_tree.specs.TreeView.{tree_of};
ghost use Rattle.branch_tree.specs.UsedTables.{spot_tables, stored_tables, used_tables};

use crate::tree::{Leaf, Spot, Tree};
use std::alloc::Global;
use uc_model::{List, NoMemory};

/// The order in which a tree is written: the numbers of its nodes in preorder, the off-child of a split before
/// its on-child, and of the tables that its leaves use in order of first use.
#[derive(Drop)]
pub struct Layout {
    pub nodes: List<u32>,
    pub tables: List<u32>,
}

// Puts the children of a split behind the nodes that are still to be walked, the off-child last.
fn push_children(pending: &mut Vec<u32>, spot: &Spot) -> Result<(), NoMemory>
    ensures { OnOk result (pending.new.items ≡ pending.old.items ++ children_of spot.now) }
{
    if let Spot::Inner { off, on, .. } = spot {
        pending.push(*on)?;
        pending.push(*off)?;
    }
    Ok(())
}

// The numbers of the nodes in preorder.
fn preorder(alloc: Global, tree: &Tree) -> Result<Vec<u32>, NoMemory>
    ensures { IfOk result (λ nodes. nodes.items ≡ numbers tree.now.nodes) }
{
    tree.keeps_cover();
    let mut nodes = Vec::new(alloc);
    let mut pending = vec![in alloc; 0_u32]?;
    while let Some(node) = pending.pop() {
        nodes.push(node)?;
        push_children(&mut pending, &tree.node(node))?;
    }
    Ok(nodes)
}

// The table of a leaf, where it has one.
fn table_of(spot: &Spot) -> Option<u32>
    ensures { option_to_list result ≡ spot_tables spot.now }
{
    match spot {
        Spot::Leaf(
            Leaf::Live { table, .. }
            | Leaf::Bound { table, .. }
            | Leaf::Ray { table }
            | Leaf::ExactRay { table },
        ) => Some(*table),
        Spot::Leaf(Leaf::Empty { .. } | Leaf::ExactEmpty { .. }) | Spot::Inner { .. } => None,
    }
}

// Puts the table behind those used, unless it was seen, and marks it as seen.
fn note(seen: &mut Vec<bool>, used: &mut Vec<u32>, table: u32) -> Result<(), NoMemory>
    requires { table < vec_len seen.old }
    ensures seen { OnOk result (seen.new.items ≡ slice_set seen.old.items table true) }
    ensures used { OnOk result (used.new.items ≡ (if slice_index_or seen.old.items table false then used.old.items else used.old.items ++ table ∷ [])) }
{
    let known = seen[table as usize];
    seen[table as usize] = true;
    if !known {
        used.push(table)?;
    }
    Ok(())
}

// The tables that the leaves use, in order of first use.
fn used(alloc: Global, tree: &Tree, nodes: &[u32], tables: usize) -> Result<Vec<u32>, NoMemory>
    requires nodes { nodes.now ≡ numbers tree.now.nodes }
    requires within { All (λ table. table < tables) (stored_tables (tree_of tree.now)) }
    ensures { IfOk result (λ used. used.items ≡ used_tables (tree_of tree.now)) }
{
    tree.keeps_cover();
    let mut seen = vec![in alloc; false; tables]?;
    let mut used = Vec::new(alloc);
    for node in nodes {
        if let Some(table) = table_of(&tree.node(*node)) {
            note(&mut seen, &mut used, table)?;
        }
    }
    Ok(used)
}

impl Layout {
    ghost use Rattle.branch_tree.specs.Claims.{IsLayoutOf};

    /// The layout of a tree, of which each leaf names one of the first `tables` tables.
    pub fn of(alloc: Global, tree: &Tree, tables: usize) -> Result<Layout, NoMemory>
        requires { All (λ table. table < tables) (stored_tables (tree_of tree.now)) }
        ensures layout { IfOk result (IsLayoutOf tree.now) }
        ensures within { IfOk result (λ layout. All (λ table. table < tables) layout.tables) }
    {
        let nodes = preorder(alloc, tree)?;
        let used = used(alloc, tree, &nodes, tables)?;
        Ok(Layout {
            nodes: List::from_vec(nodes),
            tables: List::from_vec(used),
        })
    }
}
