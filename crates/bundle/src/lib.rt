//! The steps of a proximal bundle: cuts of the Lagrangian bound, and the move to where they say that it is higher. Nothing is proved of
//! the numbers.
#![tactic(auto)]

mod cuts;
mod field;
mod numbers;
mod products;

pub use cuts::{Bundle, Cut, PriceStep, WHOLE};
pub use numbers::{at, times, word};
