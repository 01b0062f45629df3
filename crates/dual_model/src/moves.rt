//! What a unit may do in a period, by its state before it, and what an hour costs.

ghost use Rattle.std.specs.Prelude.{◌≡◌, ◌<◌, ◌≤◌, ◌-ℤ◌, ◌*ℤ◌, unsigned_abs};
ghost use Rattle.uc_model.specs.Prelude.{IsLawfulThermal, period_count, term_at as term_of};
ghost use Rattle.dual_model.specs.CostToGo.{IsWithin, MAX_MOVE};
ghost use Rattle.dual_model.specs.Moves.{holds_initially as initially, hour_before as hour_of, initial_limit as limit_of};
ghost use Rattle.dual_model.specs.UnitTerms.{AreSizedTerms};

use crate::limits::MAX_UNIT_PRICE;
use uc_model::limits::{MAX_POWER, MAX_TERM};
use uc_model::terms::place;
use uc_model::{Terms, Thermal, difference, product};

/// M7, of a unit that is on initially: whether its initial output is low enough for a stop in the first period, or for
/// none. It says nothing of a later period `t` (from 0).
pub fn holds_initially(unit: &Thermal, t: usize, stop: bool) -> bool
    ensures { result ≡ initially unit.now t stop }
{
    t > 0 || unit.p0 <= initial_limit(unit, stop)
}

// The greatest initial output of a unit that is on initially.
fn initial_limit(unit: &Thermal, stop: bool) -> i64
    ensures { result ≡ limit_of unit.now stop }
{
    if stop {
        unit.pmax.min(unit.sd)
    } else {
        unit.pmax
    }
}

/// What an hour of this term costs: the term less the price of the minimum output.
pub fn hour_cost(term: i128, price: i128, minimum: i64) -> i128
    requires term { unsigned_abs term ≤ MAX_TERM }
    requires price { unsigned_abs price ≤ MAX_UNIT_PRICE }
    requires minimum { unsigned_abs minimum ≤ MAX_POWER }
    ensures value { result ≡ term -ℤ price *ℤ minimum }
    ensures size { unsigned_abs result ≤ MAX_MOVE }
{
    difference(term, product(price, i128::from(minimum)))
}

/// What the hour before period `t` costs a unit that was on in it, without the cost of a start, by whether the hour is a start and
/// whether a stop follows it: nothing before the first period, and `None` where the hour's cap is negative.
pub fn hour_before(terms: &Terms, unit: &Thermal, t: usize, start: bool, stop: bool) -> Option<i128>
    requires lawful { IsLawfulThermal unit.now }
    requires sized { AreSizedTerms unit.now terms.now }
    requires period { t ≤ period_count terms.now }
    ensures value { result ≡ hour_of terms.now unit.now t start stop }
    ensures size { IsWithin MAX_MOVE result }
{
    if t == 0 {
        return Some(0);
    }
    let price = terms.pi.as_slice()[t - 1];
    match term_at(terms, t - 1, start, stop) {
        None => None,
        Some(term) => Some(hour_cost(term, price, unit.pmin)),
    }
}

// The term of a cell of period t, by whether it is a start and whether a stop follows.
fn term_at(terms: &Terms, t: usize, start: bool, stop: bool) -> Option<i128>
    requires { t < period_count terms.now }
    ensures { result ≡ term_of terms.now t start stop }
{
    terms.terms.as_slice()[t][place(start, stop)]
}
