//! What the hours of one thermal unit cost while it is on, an interval of periods at a time.
#![tactic(auto)]

pub mod intervals;
pub mod laws;
mod sums;

pub use intervals::Intervals;
