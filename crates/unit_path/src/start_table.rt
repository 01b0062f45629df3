//! Start costs by the last stop, from what a start costs where no stop went before it.

ghost use Rattle.std.specs.Prelude.{◌≡◌, ℕ, suc, ◌+◌, ◌-◌, ◌<◌, ◌≤◌, Some, None, length, if◌then◌else◌};
ghost use Rattle.std.specs.Int.{int_min};
ghost use Rattle.uc_model.specs.Prelude.{IsLawfulThermal, sigma as least_start_cost};
ghost use Rattle.dual_model.specs.Prelude.{stop_since};
ghost use Rattle.unit_path.specs.inside.StartCosts.{is_within_lags, row_of};

use uc_model::limits::{MAX_PERIODS, MAX_TIME};
use uc_model::{StartRow, Thermal};

/// The first period from which on a start costs a unit that is off since `since` what it costs without a stop in the
/// horizon: the stop is longer ago than any category's lag.
pub(crate) fn first_cold(unit: &Thermal, since: usize) -> usize
    requires lawful { IsLawfulThermal unit.now }
    requires past { since ≤ MAX_PERIODS }
    ensures cold { (t : ℕ) → result ≤ t → least_start_cost unit.now (stop_since since) t ≡ least_start_cost unit.now None t }
    ensures size { result ≤ MAX_PERIODS + MAX_TIME }
{
    if since == 0 {
        0
    } else {
        since - 1 + longest_lag(unit.startup.as_slice())
    }
}

// The longest lag of a start category.
fn longest_lag(rows: &[StartRow]) -> usize
    requires { (s : ℕ) → s < length rows.now → (row_of rows.now s).lag ≤ MAX_TIME }
    ensures longest { (s : ℕ) → s < length rows.now → (row_of rows.now s).lag ≤ result }
    ensures size { result ≤ MAX_TIME }
{
    let mut longest = 0;
    for row in rows {
        longest = longest.max(row.lag as usize);
    }
    longest
}

/// The least cost, in micro-dollars, of a start in period `t` of a unit that is off since `since`, from `least`, what
/// such a start costs without a stop in the horizon. A stop can only add categories to those without one.
pub(crate) fn start_cost(unit: &Thermal, least: i64, since: usize, t: usize) -> i64
    requires lawful { IsLawfulThermal unit.now }
    requires period { t < MAX_PERIODS }
    requires past { since ≤ t }
    requires least { least ≡ least_start_cost unit.now None t }
    ensures { result ≡ least_start_cost unit.now (stop_since since) t }
{
    if since == 0 {
        least
    } else {
        after_gap(unit, least, t - (since - 1), t)
    }
}

// The same, where the last stop was `gap` periods before t.
fn after_gap(unit: &Thermal, least: i64, gap: usize, t: usize) -> i64
    requires lawful { IsLawfulThermal unit.now }
    requires period { t < MAX_PERIODS }
    requires past { gap ≤ t }
    requires least { least ≡ least_start_cost unit.now None t }
    ensures { result ≡ least_start_cost unit.now (Some (t - gap)) t }
{
    let rows = unit.startup.as_slice();
    let mut cost = least;
    // Invariant, before category s + 1: cost = the least of `least` and the costs of the categories before it that the
    // gap allows.
    for s in 0..rows.len() - 1 {
        cost = cheaper(&rows[s], is_within(rows, s, gap, t), cost);
    }
    cost
}

// The lesser one of the cost of a category, where it may be had, and of the least one so far.
fn cheaper(row: &StartRow, may_be_had: bool, least: i64) -> i64
    ensures { result ≡ if may_be_had then int_min row.now.cost least else least }
{
    if may_be_had {
        row.cost.min(least)
    } else {
        least
    }
}

// Whether a stop `gap` periods before t lies between the lags of category s + 1 and the next one's, which has been
// reached in the horizon.
fn is_within(rows: &[StartRow], s: usize, gap: usize, t: usize) -> bool
    requires category { suc s < length rows.now }
    requires period { t < MAX_PERIODS }
    ensures { result ≡ is_within_lags rows.now s gap t }
{
    let lag = rows[s + 1].lag as usize;
    gap < lag && lag <= t + 1 && rows[s].lag < rows[s + 1].lag
}
