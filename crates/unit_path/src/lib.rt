//! The value of one thermal unit at a price table, with a pattern that attains it: a shortest path from switch to
//! switch, over the intervals in which the unit is on and those in which it is off.
#![tactic(auto)]

mod choices;
mod hour;
mod hour_costs;
pub mod path;
mod rests;
mod runs;
mod scratch;
mod start_table;
mod trace;

pub use path::least;
pub use scratch::Scratch;
