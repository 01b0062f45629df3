//! The words of the command line: which are taken, and what they ask for.
#![tactic(auto)]

mod arguments;
pub mod command;

pub use command::{Check, Command, Demo, Roll, Solve, Upgrade, Uplift, command_of};
