//! What a commitment dispatches to: its schedule in order of merit, or where it gets stuck; the law that it has one dispatch; and the
//! commitment with the most on periods.
#![tactic(auto)]

pub mod extreme_patterns;
pub mod fill;
pub mod merit_order;
pub mod most_on_commitment;
pub mod obstacle;
pub mod one_dispatch;
pub mod period;
pub mod range;
pub mod ranges;
mod regularity;
pub mod room;
pub mod rows;
pub mod schedule;
mod segment;
mod shortage;
pub mod totals;

pub use extreme_patterns::{fewest_of, most_of};
pub use fill::Left;
pub use most_on_commitment::{MostFault, most_on};
pub use obstacle::Totals;
pub use one_dispatch::commitments_have_one_dispatch;
pub use period::{PeriodStart, dispatch_after, set_initial, start_from};
pub use range::{Range, Reach, unit_reach};
pub use room::Room;
pub use rows::{Rows, committed, committed_cell};
pub use schedule::{DispatchFault, Obstacle, dispatch, dispatch_rows};
pub use segment::Segment;
pub use shortage::Shortage;
pub use uc_model::Stuck;
