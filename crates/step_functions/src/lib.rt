//! Convex piecewise linear functions on a whole interval, with whole breakpoints and whole slopes: the least costs by output
//! in the dynamic program of a single unit with ramps (A. Frangioni and C. Gentile, "Solving Nonlinear Single-Unit Commitment
//! Problems with Ramping Constraints", Operations Research 54, 2006).
#![tactic(auto)]

mod edits;
mod function;
pub mod limits;
mod runs;

pub use function::{Bottom, ConvexFunction};
pub use runs::Run;
