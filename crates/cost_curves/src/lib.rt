//! The lower convex hull of a unit's points, and the least production cost at an output by it.
//!
//! Outputs are watts above the first point's, costs micro-dollars an hour.
#![tactic(auto)]

mod corners;
mod curve;
mod inline;
pub mod laws;
mod line;
mod places;
mod slope;
mod unit_curves;

pub use curve::Curve;
pub use inline::InlineCurve;
pub use line::{rise, run};
pub use slope::Slope;
pub use unit_curves::curves_of;
