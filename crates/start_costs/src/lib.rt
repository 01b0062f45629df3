//! What a start costs: the cheapest category that a pattern's history allows, and the least cost by the last
//! stop alone.
#![tactic(auto)]

pub mod barred;
pub mod by_history;
pub mod by_last_stop;
pub mod laws;

pub use barred::is_barred;
pub use by_history::{least_allowed, start_category, stops, was_on};
pub use by_last_stop::sigma;
