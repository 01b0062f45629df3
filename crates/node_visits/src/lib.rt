//! What a worker does at a node that it holds: at which table it evaluates it, whether it splits it and on which cell, and how far it repairs
//! the ascent.
#![tactic(auto)]

mod effort;
mod pair;
mod start;
mod visit;
mod worker;

pub use effort::{RepairEffort, enough, moves};
pub use pair::beside;
pub use start::{SearchStart, first_ascent};
pub use visit::{Aim, Visited, evaluated};
pub use worker::Worker;
