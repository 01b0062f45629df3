//! The program `uc` as a function of its words and of the outside.
#![tactic(auto)]

mod demo;
mod program;
mod rolling;
mod solve;

pub use command_runs::End;
pub use outside::{SlurpFault, slurp};
pub use program::uc;
