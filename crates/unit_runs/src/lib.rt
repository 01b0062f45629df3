//! The exact value of one thermal unit by its runs of on hours: the definitions that both ways to find it share, and
//! what makes them right.
//!
//! A run's outputs are tied by ramps, and different runs are not: so the least value of a unit's schedules is a sum over
//! the runs of a pattern. The definitions stand in `specs/`, and the laws are the contracts of the module `laws`.
#![tactic(auto)]

pub mod entry;
pub mod examples;
pub mod laws;

pub use entry::entry_output;
