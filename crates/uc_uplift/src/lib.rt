//! The command `uplift`.
#![tactic(auto)]

mod uplifting;

pub use uplifting::uplift_certificate;
