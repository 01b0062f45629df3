//! A list of price tables, each but a few kept as its changes against the one before it.
#![tactic(auto)]

mod change;
mod differences;
mod kept;
mod list;
mod numbers;
mod passing;
mod rows;

pub use change::Change;
pub use list::TableList;
pub use passing::{Passed, Prices, pass};
pub use rows::{is_before, no_row};
