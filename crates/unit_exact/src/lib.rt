//! The exact value of one thermal unit at a price table, with a pattern that attains it.
#![tactic(auto)]

mod choices;
mod exact;
mod hourly;
mod moves;
mod output_costs;
mod runs;
mod starts;
mod stops;
mod trace;

pub use exact::{Exact, keeps_ramps, least};
pub use hourly::Plain;
