//! The price tables that need no search: the table of no prices, the rays of the opening, and the prices of a dispatch.
#![tactic(auto)]

mod limited;
mod marginal_prices;
mod no_prices;
mod rays;

pub use limited::kept;
pub use marginal_prices::{marginal, marginal_in};
pub use no_prices::{SCALE, unpriced, zero};
pub use rays::opening_ray;
