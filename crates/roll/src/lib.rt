//! Rolling windows: from a schedule of an instance's first periods to the instance of the next window, and from a schedule of
//! the window to one of more periods. A schedule stitched so obeys every rule of the whole instance.
#![tactic(auto)]

mod carrying;
pub mod examples;
pub mod laws;
mod places;
mod rolled;
mod rows;
mod state;
mod stitching;
mod windows;

pub use carrying::carry;
pub use places::{Place, next_place};
pub use rolled::Rolled;
pub use state::{Carried, CarriedUnit};
pub use stitching::{begin, stitch, whole_cost};
pub use windows::window;
