//! The terms of a unit: its least reduced cost in a period that it is on, for each cap that it can have there.
//!
//! Powers are watts, costs micro-dollars an hour.
#![tactic(auto)]

mod cell;
mod freed;
mod unit_terms;

pub use cell::term;
pub use uc_model::Terms;
pub use unit_terms::terms;
