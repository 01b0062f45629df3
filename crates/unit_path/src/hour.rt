//! What the path knows of a period: the moves there, and the least ways that begin with a switch in it.

use dual_model::choices::Choice;

/// A period, or the end of the horizon behind the last one. `None` is what may not be.
#[derive(Clone, Copy)]
pub(crate) struct Hour {
    /// What it costs to stay on in the period: the hour before, which was no start.
    pub(crate) stay: i128,
    /// The least cost of a start in the period that no stop in the horizon went before, in micro-dollars.
    pub(crate) start_cost: i64,
    /// The first period from this one on in which the unit may not be on, and in which it may not be off; the number of
    /// periods where there is none.
    pub(crate) on_until: usize,
    pub(crate) off_until: usize,
    /// The least way from a start in the period on, without the cost of that start: where it stops next.
    pub(crate) start: Option<Choice>,
    /// The least way from a stop in the period on: where it starts next.
    pub(crate) stop: Option<Choice>,
    /// The least way of a unit that is on before the period and has been for its minimum time: where it stops next.
    pub(crate) onward: Option<Choice>,
    /// The least way of a unit that is off before the period, and has been for its minimum time and longer than any
    /// start category counts: where it starts next.
    pub(crate) cold_start: Option<Choice>,
}

/// A period of which nothing is known yet.
pub(crate) const UNKNOWN: Hour = Hour {
    stay: 0,
    start_cost: 0,
    on_until: 0,
    off_until: 0,
    start: None,
    stop: None,
    onward: None,
    cold_start: None,
};
