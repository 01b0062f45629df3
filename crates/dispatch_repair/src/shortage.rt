//! What a period's dispatch leaves unserved of demand, and what reserve it lacks, where these have a price.

ghost use Rattle.std.specs.Prelude.{◌≡◌, ◌*◌, ◌≤◌, ◌==◌, ◌&&◌, ◌+ℤ◌, ◌-ℤ◌, nat_lt, pos, unsigned_abs, if◌then◌else◌};
ghost use Rattle.std.specs.Int.{int_max};
ghost use Rattle.uc_model.specs.Prelude.{IsPower};
ghost use Rattle.dispatch_repair.specs.Period.{Period, demand_of, need_of};
ghost use Rattle.dispatch_repair.specs.Shortage.{reserve_room as reserve_room_of, unmet as unmet_of};
ghost use Rattle.dispatch_repair.specs.Totals.{AreSizedTotals, AreTotalsOf, IsSizedMissing, IsSizedTotal, IsSizedUnmet};
ghost use Rattle.dispatch_repair.specs.Filled.{AreShortages};

use crate::obstacle::{Totals, most, reserve_room};
use uc_model::Instance;
use uc_model::limits::{MAX_POWER, MAX_UNITS};

/// What is missing in a period, in watts: the demand that stays unserved, and the reserve that isn't kept.
#[derive(Clone, Copy)]
pub struct Shortage {
    pub shed: i64,
    pub short: i64,
}

/// What is missing in a period without an obstacle.
pub(crate) fn shortage_of(instance: &Instance, totals: &Totals, demand: i64, need: i64) -> Shortage
    requires sizes { AreSizedTotals totals.now }
    requires demand { IsPower demand }
    requires need { IsPower need }
    ensures are { (period : Period) → period.instance ≡ instance.now → AreTotalsOf period totals.now
        → demand ≡ demand_of period → need ≡ need_of period → AreShortages period result }
    ensures shed { IsSizedMissing result.shed }
    ensures short { IsSizedMissing result.short }
{
    let unmet = unmet(instance.a, totals, demand);
    let left = less(demand, unmet);
    let lacking = beyond(need, reserve_room(totals, left));
    Shortage {
        shed: shed(instance, unmet, lacking),
        short: short(instance.b, lacking),
    }
}

// The demand above the most that all give, where a watt of it has a price.
fn unmet(price: u32, totals: &Totals, demand: i64) -> i64
    requires sizes { AreSizedTotals totals.now }
    requires demand { IsPower demand }
    ensures size { IsSizedUnmet result }
    ensures value { (period : Period) → price ≡ period.instance.a → AreTotalsOf period totals.now → demand ≡ demand_of period
        → result ≡ unmet_of period }
{
    if price > 0 {
        above(demand, most(totals))
    } else {
        0
    }
}

// By how much a demand is above a total.
fn above(demand: i64, total: i64) -> i64
    requires demand { IsPower demand }
    requires total { IsSizedTotal total }
    ensures value { result ≡ int_max (demand -ℤ total) (pos 0) }
    ensures size { IsSizedUnmet result }
{
    (demand - total).max(0)
}

// A demand less what is unmet of it.
fn less(demand: i64, unmet: i64) -> i64
    requires demand { IsPower demand }
    requires unmet { IsSizedUnmet unmet }
    ensures value { result ≡ demand -ℤ unmet }
    ensures size { unsigned_abs result ≤ MAX_UNITS * (12 * MAX_POWER) }
{
    demand - unmet
}

// By how much a need is above a room.
fn beyond(need: i64, room: i64) -> i64
    requires need { IsPower need }
    requires room { unsigned_abs room ≤ MAX_UNITS * (22 * MAX_POWER) }
    ensures value { result ≡ int_max (need -ℤ room) (pos 0) }
    ensures size { unsigned_abs result ≤ MAX_UNITS * (23 * MAX_POWER) }
{
    (need - room).max(0)
}

// The demand that stays unserved: what is unmet, and where reserve has no price what is lacking for it.
fn shed(instance: &Instance, unmet: i64, lacking: i64) -> i64
    requires unmet { IsSizedUnmet unmet }
    requires lacking { unsigned_abs lacking ≤ MAX_UNITS * (23 * MAX_POWER) }
    ensures value { result ≡ (if nat_lt 0 instance.now.a && instance.now.b == 0 then unmet +ℤ lacking else unmet) }
    ensures size { IsSizedMissing result }
{
    if instance.a > 0 && instance.b == 0 {
        unmet + lacking
    } else {
        unmet
    }
}

// The reserve that isn't kept: what is lacking, where a watt of it has a price.
fn short(price: u32, lacking: i64) -> i64
    requires { unsigned_abs lacking ≤ MAX_UNITS * (23 * MAX_POWER) }
    ensures value { result ≡ (if nat_lt 0 price then lacking else pos 0) }
    ensures size { IsSizedMissing result }
{
    if price > 0 { lacking } else { 0 }
}
