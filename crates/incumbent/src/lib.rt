//! The incumbent: the least cost that any worker has published, in one word that all share.
#![tactic(auto)]

pub mod best;
mod rule;
mod word;

pub use best::{Best, Pass};
