//! How a roll ends.

ghost use Rattle.std.specs.Prelude.{◌≡◌};

use branch_tree::Found;
use uc_model::Printed;

/// What comes of rolling an instance window by window.
#[derive(Drop)]
pub enum Rolled {
    /// A schedule of all periods with its cost in micro-dollars, and how many windows it is stitched of.
    Whole {
        schedule: Printed,
        cost: i64,
        windows: u32,
    },
    /// The search of a window found no schedule. The window is told by its number and its first and last period, each from 1;
    /// `kept` is the schedule of the periods before it, and `found` what the search found.
    Stopped {
        window: u32,
        from: u32,
        to: u32,
        kept: Printed,
        found: Found,
    },
}

impl Rolled {
    ghost use Rattle.roll.specs.Rolling.{status_of};

    /// The exit status of a run that ended so: 0 with a schedule of all periods, and 10 where a window has none.
    pub fn status(&self) -> u8
        ensures { result ≡ status_of self.now }
    {
        match self {
            Rolled::Whole { .. } => 0,
            Rolled::Stopped { .. } => 10,
        }
    }
}
