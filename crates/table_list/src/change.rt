//! A number in which a table differs from the one before it.

use dual_model::RampRow;

/// A number that is another one than in the table before. Units and periods count from 0.
#[derive(Clone, Copy)]
pub enum Change {
    /// The price of demand in period `t`.
    Demand { t: usize, price: i64 },
    /// The price of reserve in period `t`.
    Reserve { t: usize, price: i64 },
    /// The ramp row of its unit and period; one that is all 0 takes the row away.
    Ramps(RampRow),
}
