//! The prices that a table's multipliers put on one thermal unit: those of its output and reserve in each
//! period, and the unit's constant.
#![tactic(auto)]

mod multipliers;
pub mod prices;
mod search;
pub mod unit_constant;
mod wide;

pub use prices::{coefficients, fill};
pub use unit_constant::constant;
