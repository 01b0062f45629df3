//! The state of the search machine, and its steps: what `search_machine` defines, as data and calls.
//!
//! Contracts see a state as the record of `search_machine/specs/Machine`, and `step` does what `search_machine/specs/Steps` says.
#![tactic(auto)]

mod costs;
mod desk;
mod desks;
mod holder;
mod lists;
mod log;
mod record;
mod start;
pub mod state;

pub use search_machine::{Entry, Event, Move, Outcome, StepFault, Stored};
pub use state::State;
