//! The search machine: several workers on one tree of commitments, as one state that goes from event to event, and what holds of its runs.
//!
//! `specs/Machine` has the state, and `specs/Steps` says where an event is legal and what the state is after it.
#![tactic(auto)]

pub mod desk;
pub mod event;
pub mod holder;
pub mod laws;
pub mod legal;
pub mod limits;
pub mod moves;
pub mod start;
pub mod stored;
pub mod tables;

pub use branch_tree::{Entry, Outcome};
pub use event::{Event, Move, StepFault};
pub use stored::{Stored, kept_after};
