//! The value of one thermal unit at a price table, the checker's way: a walk over the periods and the states "on since" and
//! "off since", with the terms that it adds up. The exact value, which keeps ramps, is found by such a walk too, in which a
//! run is paid for at its end: what its hours cost is found from there back.
#![tactic(auto)]

mod endings;
mod exact;
mod moves;
mod rest;
pub mod walk;

pub use exact::{ExactWalk, least_exact};
pub use walk::{Walk, least};
