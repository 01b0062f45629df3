//! The demo generator: the instance that a seed stands for.
#![tactic(auto)]

pub mod examples;
mod generator;
mod millions;
mod numbers;
mod system;
mod unit;
mod units;

pub use system::instance;
