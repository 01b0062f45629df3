//! The schedule that a cheapest basis of a commitment's table stands for, printed over the least denominator over which its powers are whole.
//! Definitions stand in `specs/`; what makes the denominator the least is a law, the contract of a function of the module `laws`.
#![tactic(auto)]

mod choices;
mod chosen;
pub mod laws;
mod power;
mod printing;
mod schedules;
mod shown;
mod values;

pub use schedules::schedule;
pub use shown::Shown;
