//! What the end of a run on a commitment's table gives, as prices and as a schedule: the prices are read off the last row, and the laws say what both
//! are worth.
#![tactic(auto)]

pub mod laws;
mod multipliers;
mod table;
mod unfit;

pub use multipliers::FinalTableau;
pub use unfit::Unfit;
