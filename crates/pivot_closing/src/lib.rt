//! When a search that uses the exact dispatch closes.
#![tactic(auto)]

pub mod laws;
