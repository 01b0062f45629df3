//! A first schedule by unit decommitment: from the commitment with the most on periods, unit by unit, to one with fewer.
#![tactic(auto)]

mod entry;
mod fill;
mod level;
mod merit;
pub mod pass;
mod patterns;
mod price;
mod run;
mod stand;
mod stretch;

pub use pass::{Standing, drop_pass};
