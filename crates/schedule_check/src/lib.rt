//! The feasibility check: whether a printed schedule obeys the rules M1 to M17, with its cost, or else the first
//! rule, unit and period at which it breaks one. It stands on no solver and takes no memory.
//!
//! A rule is looked at unit by unit and period by period. Minimum times and start categories are read off counts of
//! the starts and stops before each period, so that a cell costs a constant number of steps for each rule.
#![tactic(auto)]

mod balance;
mod broken;
mod commitment;
mod counts;
mod dispatch;
mod feasibility;
pub mod limits;
mod minimum_times;
pub mod pricing;
mod renewable;
mod shortages;
mod start_category;
mod unit_rule;
mod unit_rules;

pub use broken::Broken;
pub use feasibility::{check, cost};
pub use pricing::{row_cost, shortages_cost};
pub use unit_rules::broken_rule;
