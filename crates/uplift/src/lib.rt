//! Uplifts: by how much each part of a system would do better by its own choice, at the prices of a bound, than by what a schedule
//! gives it. They are no less than 0, and add up to the gap between the schedule's cost and the bound.
#![tactic(auto)]

mod renewable;
mod reserve;
mod shortage;
mod thermal;
mod total;
pub mod uplifts;

pub use uplifts::{Uplifts, of};
