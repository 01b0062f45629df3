//! Nodes of the branch tree: what a path from the root has decided.

ghost use Rattle.std.specs.Prelude.{◌≡◌, ◌<◌};
ghost use Rattle.dual_model.specs.Moves.{may_be_off as off_at, may_be_on as on_at};
ghost use Rattle.dual_model.specs.Tree.{root};

use std::alloc::Global;
use uc_model::limits::MAX_PERIODS;
use uc_model::{List, Pattern, Thermal};

/// The decision that thermal unit `g` is on, or off, in period `t`, both counted from 0.
#[derive(Clone, Copy, PartialEq, Eq)]
pub struct Fixing {
    pub g: u32,
    pub t: u32,
    pub on: bool,
}

/// A node: the decisions on its path, from the root on.
#[derive(Drop)]
pub struct Node {
    pub fixings: List<Fixing>,
}

impl Node {
    /// The root, at which nothing is decided. Takes no memory.
    pub fn root(alloc: Global) -> Node
        ensures { result ≡ root }
    {
        Node {
            fixings: List::from_vec(Vec::new(alloc)),
        }
    }
}

/// What a node decides of one thermal unit: the periods in which it is decided, and those of them in which
/// the unit is on.
#[derive(Clone, Copy, PartialEq, Eq)]
pub struct Fix {
    pub known: Pattern,
    pub on: Pattern,
}

impl Fix {
    /// Whether the unit may be on in period `t` (from 0) by what is decided.
    pub fn may_be_on(&self, t: usize) -> bool
        requires { t < MAX_PERIODS }
        ensures { result ≡ on_at self.now t }
    {
        let period = t as u32;
        !self.known.is_on(period) || self.on.is_on(period)
    }

    /// Whether the unit may be off in period `t` (from 0) by M1 and what is decided.
    pub fn may_be_off(&self, unit: &Thermal, t: usize) -> bool
        requires { t < MAX_PERIODS }
        ensures { result ≡ off_at unit.now self.now t }
    {
        let period = t as u32;
        !unit.must_run && (!self.known.is_on(period) || !self.on.is_on(period))
    }
}
