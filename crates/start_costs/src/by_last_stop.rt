//! The least start cost by the last stop alone.

ghost use Rattle.std.specs.Prelude.{◌≡◌, ℕ, ◌+◌, ◌<◌};
ghost use Rattle.uc_model.specs.Prelude.{category_count, may_cost_as as costs_as, sigma as least_start_cost, start_row, stopped_within as within_of, IsLawfulThermal};

use crate::barred::is_barred;
use uc_model::Thermal;
use uc_model::limits::MAX_PERIODS;

/// The least cost, in micro-dollars, of a start in period `t` (from 0) over the unit's start categories
/// that the last stop before it allows; `None` is no stop in the horizon.
pub fn sigma(unit: &Thermal, last_stop: Option<usize>, t: usize) -> i64
    requires lawful { IsLawfulThermal unit.now }
    requires period { t < MAX_PERIODS }
    ensures { result ≡ least_start_cost unit.now last_stop t }
{
    let rows = unit.startup.as_slice();
    let mut least = rows[rows.len() - 1].cost;
    for s in 0..rows.len() - 1 {
        if may_cost_as(unit, last_stop, t, s) {
            least = rows[s].cost.min(least);
        }
    }
    least
}

// Whether a start in period t may cost as much as category s + 1, which isn't the last one.
fn may_cost_as(unit: &Thermal, last_stop: Option<usize>, t: usize, s: usize) -> bool
    requires period { t < MAX_PERIODS }
    requires category { s + 1 < category_count unit.now }
    ensures { result ≡ costs_as unit.now last_stop t s }
{
    let rows = unit.startup.as_slice();
    let from = rows[s].lag as usize;
    let lag = rows[s + 1].lag as usize;
    if lag <= t + 1 {
        from < lag && stopped_within(last_stop, lag - 1, t)
    } else {
        !is_barred(unit.dt0 as usize, lag, t)
    }
}

// Whether the last stop lies at most `most` periods before t.
fn stopped_within(last_stop: Option<usize>, most: usize, t: usize) -> bool
    ensures { result ≡ within_of last_stop most t }
{
    match last_stop {
        None => false,
        Some(stop) => t.saturating_sub(stop) <= most,
    }
}
