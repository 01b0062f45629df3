//! Schedules near the bound: commitments rounded from the shares of an ascent, improved unit by unit, and kicked.
#![tactic(auto)]

mod accepted;
mod chance;
mod descent;
mod kept;
mod kicks;
mod moves;
mod passes;
mod printing;
mod room;
mod rounding;
mod size;
mod tried;
mod turns;
mod walk;
mod widening;

pub use descent::repair;
pub use room::Repair;
pub use size::is_small;
