//! The tree of commitments.

use crate::cells;
use crate::minima::Minima;
use crate::places::{self, Place};
use dual_model::Node;
use std::alloc::Global;
use std::marker::Model;
use uc_model::{List, NoMemory};

/// A leaf of the tree. Tables are numbers of `Found`'s list, from 0; values are micro-dollars.
#[derive(Clone, Copy, Debug, PartialEq, Eq)]
pub enum Leaf {
    /// An open leaf: the bound of the table is `value`, by VE where it is exact, else by V.
    Live {
        table: u32,
        value: i128,
        exact: bool,
    },
    /// A closed leaf: the bound of the table is `value`, by VE where it is exact, else by V.
    Bound {
        table: u32,
        value: i128,
        exact: bool,
    },
    /// The table is a ray that excludes every schedule of the leaf by V.
    Ray {
        table: u32,
    },
    /// Thermal unit `g`, from 0, has no allowed pattern at the leaf.
    Empty {
        g: u32,
    },
    /// The table is a ray that excludes every schedule of the leaf by VE.
    ExactRay {
        table: u32,
    },
    /// Thermal unit `g`, from 0, has no schedule of its own at the leaf.
    ExactEmpty {
        g: u32,
    },
}

/// What stands at a node.
#[derive(Clone, Copy, Debug, PartialEq, Eq)]
pub enum Spot {
    /// A split on thermal unit `g` and period `t`, each from 0, into the children of these numbers.
    Inner { g: u32, t: u32, off: u32, on: u32 },
    /// A leaf.
    Leaf(Leaf),
}

/// A tree of splits on thermal units and periods. Its nodes have the numbers from 0, which is the root.
///
/// Contracts see it as the view of `specs/TreeView`: a tree whose nodes have their numbers, with its size and
/// its room. The bounds that its nodes store stand in a tournament, so that a change mends them in steps as many
/// as the number of nodes has binary digits, and the least is read in one.
#[derive(Drop)]
pub struct Tree {
    units: u32,
    periods: u32,
    places: Vec<Place>,
    bounds: Minima,
}

impl Model for Tree {
    ghost use Rattle.branch_tree.specs.TreeView.{TreeView};
    ghost use Rattle.branch_tree.specs.TreeCode.{tree_view_code};

    ghost Value = { TreeView };

    ghost coded = { tree_view_code };

    ghost use Rattle.branch_tree.specs.Places.{view_of, IsStored};

    ghost view = { view_of };

    ghost invariant = { IsStored };
}

impl Tree {
    ghost use Rattle.std.specs.Prelude.{◌≡◌, ◌↔◌, ◌+◌, ◌<◌, ◌≤◌, suc, max, pos, Some, IfOk, IsTrue, MatchOption};
    ghost use Rattle.branch_tree.specs.NumberedTree.{EndAt, node_count, spot_at, node_at, replaced, split_leaf};
    ghost use Rattle.branch_tree.specs.TreeView.{TreeView, IsWhole, IsOpenAt, IsFreeAt, HasFreeCell, open_root};
    ghost use Rattle.branch_tree.specs.StoredTree.{tree_bound};

    /// A tree of its root alone, which is open, of table 0 and value 0, by V. It splits on the cells of `units`
    /// thermal units and `periods` periods, and has room for `nodes` nodes, or for the root where this is 0.
    pub fn with_room(alloc: Global, units: u32, periods: u32, nodes: u32) -> Result<Tree, NoMemory>
        ensures tree { IfOk result (λ tree. tree ≡ open_root units periods (max nodes 1)) }
        ensures whole { IfOk result IsWhole }
    {
        let room = nodes.max(1) as usize;
        let mut places = Vec::with_capacity(alloc, room)?;
        let mut bounds = Minima::with_room(alloc, room)?;
        let leaf = Leaf::Live {
            table: 0,
            value: 0,
            exact: false,
        };
        places.push_reserved(Place {
            parent: 0,
            spot: Spot::Leaf(leaf),
        });
        bounds.push(Some(0));
        Ok(Tree {
            units,
            periods,
            places,
            bounds,
        })
    }

    /// What every tree keeps: it is a cover of each instance of its size, its nodes have the numbers from 0, and
    /// there is room for them. The contract of a call that does nothing.
    pub fn keeps_cover(&self)
        ensures { IsWhole self.now }
    {
        let _places = &self.places;
    }

    /// Splits an open leaf on thermal unit `g` and period `t`, each from 0, and answers the numbers of its
    /// off-child and of its on-child. Both are open, and store what the leaf stored.
    pub fn split(&mut self, node: u32, g: u32, t: u32) -> (u32, u32)
        requires live { IsOpenAt self.old.nodes node }
        requires free { IsFreeAt self.old node g t }
        requires room { node_count self.old.nodes + 2 ≤ self.old.room }
        ensures children { (result.0 ≡ node_count self.old.nodes) × (result.1 ≡ suc (node_count self.old.nodes)) }
        ensures tree { self.new ≡ record self.old { nodes = replaced node (split_leaf node g t result.0 result.1) self.old.nodes } }
        ensures whole { IsWhole self.new }
    {
        let bound = places::bound_at(&self.places[node as usize].spot);
        self.bounds.set(node as usize, None);
        self.bounds.push(bound);
        self.bounds.push(bound);
        places::split(&mut self.places, node, g, t)
    }

    /// Stores another leaf at an open one, which stays open where the new one is `Live`.
    pub fn close(&mut self, node: u32, leaf: Leaf)
        requires live { IsOpenAt self.old.nodes node }
        ensures tree { self.new ≡ record self.old { nodes = replaced node (λ _. EndAt node leaf) self.old.nodes } }
        ensures whole { IsWhole self.new }
    {
        self.bounds
            .set(node as usize, places::bound_at(&Spot::Leaf(leaf)));
        places::store(&mut self.places, node, leaf);
    }

    /// The least bound stored at a leaf that isn't excluded, in micro-dollars; none where each leaf is.
    pub fn bound(&self) -> Option<i128>
        ensures { result ≡ tree_bound self.now }
    {
        self.bounds.least()
    }

    /// The decisions on the path from the root to the node of this number, in this order.
    pub fn fixings(&self, alloc: Global, node: u32) -> Result<Node, NoMemory>
        requires { node < node_count self.now.nodes }
        ensures { IfOk result (λ found. node_at self.now.nodes node ≡ Some found) }
    {
        let path = places::path(alloc, &self.places, node)?;
        Ok(Node {
            fixings: List::from_vec(path),
        })
    }

    /// Whether the node of this number is this one: these are the decisions on its path, in this order. Takes no memory.
    pub fn is_at(&self, number: u32, node: &Node) -> bool
        requires { number < node_count self.now.nodes }
        ensures { IsTrue result ↔ (node_at self.now.nodes number ≡ Some node.now) }
    {
        places::is_path(&self.places, number, node.fixings.as_slice())
    }

    /// Whether thermal unit `g` and period `t`, each from 0, are a cell of the tree that is undecided at the node of this
    /// number. Takes no memory.
    pub fn is_free(&self, number: u32, g: u32, t: u32) -> bool
        requires { number < node_count self.now.nodes }
        ensures { IsTrue result ↔ IsFreeAt self.now number g t }
    {
        let undecided = cells::is_undecided(&self.places, number, g, t);
        g < self.units && t < self.periods && undecided
    }

    /// The first cell that is undecided at the node of this number: its thermal unit and its period, each from 0. None where
    /// each is decided. Takes no memory.
    pub fn free_cell(&self, number: u32) -> Option<(u32, u32)>
        requires { number < node_count self.now.nodes }
        ensures { MatchOption result (¬ HasFreeCell self.now number) (λ cell. IsFreeAt self.now number cell.0 cell.1) }
    {
        cells::first_undecided(&self.places, number, self.units, self.periods)
    }

    /// Whether some cell is undecided at the node of this number. Takes no memory.
    pub fn has_free_cell(&self, number: u32) -> bool
        requires { number < node_count self.now.nodes }
        ensures { IsTrue result ↔ HasFreeCell self.now number }
    {
        self.free_cell(number).is_some()
    }

    /// What stands at the node of this number.
    pub fn node(&self, node: u32) -> Spot
        requires { node < node_count self.now.nodes }
        ensures { spot_at self.now.nodes node ≡ Some result }
    {
        self.places[node as usize].spot
    }
}
