//! What a search lets out: a schedule that obeys, with its cost, in whole watts or, by the exact dispatch, over a denominator.
#![tactic(auto)]

mod obeying;

pub use obeying::accepted;
