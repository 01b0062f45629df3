//! The state of a commitment while its schedule is sought, what it costs, and the best pattern of a unit beside all others.
//!
//! It is in whole numbers, and nothing is proved of it but that it is safe: a schedule is let out only where the feasibility check takes it.
#![tactic(auto)]

mod beside;
mod cells;
mod convex;
mod course;
mod heads;
mod leeway;
mod lists;
mod merit;
mod patterns;
mod period;
mod supply;
mod swap_run;
mod swaps;
mod system;
mod trajectory;
mod unit;
mod window;

pub use beside::Beside;
pub use cells::{Cells, Known, SAME, WAYS, cells_of};
pub use course::Course;
pub use lists::{at, behind, put, stretch};
pub use merit::{Market, PART, rate_within};
pub use patterns::{Decided, is_on};
pub use period::{Period, mixed};
pub use system::{Plant, RepairState, TriedUnit, copy_row, exchange, shift, total};
pub use trajectory::Trajectory;
pub use unit::{Limits, Unit, unit_at};
pub use window::{Window, keep_ramps, limits_at, narrow, open};
