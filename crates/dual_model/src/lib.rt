//! The Lagrangian bound on a unit commitment problem: price tables, nodes of the branch tree, the value of
//! a node at a table, and the laws that make it a bound.
//!
//! The model's coupling rules (ramps, demand, reserve) are priced, and each thermal unit is then a problem
//! of its own. The definitions stand in `specs/`, and the laws are the contracts of the module `laws`.
#![tactic(auto)]

pub mod choices;
pub mod exact;
pub mod examples;
pub mod laws;
pub mod limits;
pub mod moves;
pub mod node;
mod places;
pub mod table;
pub mod traces;
pub mod valued;

pub use node::{Fix, Fixing, Node};
pub use table::{RampRow, Table};
pub use valued::Valued;
