//! Why a commitment could not be dispatched.

use crate::schedule::Printed;

/// The reason in the first period that can't be filled. Powers are watts, units count from 0.
#[derive(Clone, Copy, Debug)]
pub enum Why {
    /// The commitment breaks rule M`rule`, one of M1 to M5 and M7, for thermal unit `unit`.
    Rule { rule: u8, unit: usize },
    /// Thermal unit `unit` needs at least `low` and at most `high` above its minimum, and `high` is less.
    Box { unit: usize, low: i64, high: i64 },
    /// The least total output is above demand.
    Over { least: i64, demand: i64 },
    /// The most total output is below demand.
    Under { most: i64, demand: i64 },
    /// The room for reserve is below what is needed.
    Reserve { room: i64, need: i64 },
}

/// A dispatch that got stuck in `period`, from 0, with the schedule of the periods before it.
#[derive(Debug, Drop)]
pub struct Stuck {
    pub period: usize,
    pub prefix: Printed,
    pub why: Why,
}
