//! The term of a cell, found on the lower hull of the unit's points.

ghost use Rattle.std.specs.Prelude.{◌≡◌, ℕ, suc, ◌*◌, ◌^◌, ◌<◌, ◌≤◌, ℤ, pos, ◌-ℤ◌, ◌*ℤ◌, ◌≤ℤ◌, ◌<ℤ◌, List, int_le, int_lt, length, unsigned_abs, slice_index_or, None, IfSome};
ghost use Rattle.uc_model.specs.Prelude.{IsFloor, output_of, point_of};
ghost use Rattle.dual_model.specs.Prelude.{IsTerm, IsCellTerm, IsLawfulScale};
ghost use Rattle.cost_curves.specs.LowerHull.{AreLawfulCorners, IsLowerHull};
ghost use Rattle.period_term.specs.inside.Freed.{AreFreed, AreLawfulPrices};
ghost use Rattle.period_term.specs.inside.Places.{Point, corner_cost as corner_cost_of, over_of, rise_of, run_of, IsLeastPlace, HoldsCap, LiesOnSegment, MAX_CORNER_COST, MAX_RISE, MAX_OVER, MAX_LEAST};

use crate::freed::{Prices, freed};
use cost_curves::Curve;
use dual_model::limits::{MAX_CAP, MAX_UNIT_PRICE};
use uc_model::limits::{MAX_POWER, MAX_TERM};
use uc_model::{Point, difference, floor_div, product, scaled, sum};

/// The term of a cell: the greatest whole number that is not above `k * cost + a * p + b * r` over all
/// weights on the points of the curve, their cost and output p above the first point's, and all reserves r of
/// at least 0, with p + r at most `cap`; `None` exactly where the cap is negative. Powers are watts and costs
/// micro-dollars.
pub fn term(curve: &Curve, k: i64, a: i128, b: i128, cap: i64) -> Option<i128>
    requires scale { IsLawfulScale k }
    requires output_price { unsigned_abs a ≤ MAX_UNIT_PRICE }
    requires reserve_price { unsigned_abs b ≤ MAX_UNIT_PRICE }
    requires cap { unsigned_abs cap ≤ MAX_CAP }
    ensures term { (points : List Point) → IsLowerHull points curve.now → IsCellTerm points k a b cap result }
    ensures size { (points : List Point) → IsLowerHull points curve.now → IfSome result (λ m. unsigned_abs m ≤ MAX_TERM) }
{
    let prices = freed(k, a, b);
    let corners = curve.corners();
    let place = least_place(corners, &prices);
    cell_term(corners, &prices, place, cap)
}

/// The terms of the cells of four caps, at the prices of one period.
pub(crate) fn row_terms(
    curve: &Curve,
    k: i64,
    a: i128,
    b: i128,
    caps: &[i64; 4],
) -> [Option<i128>; 4]
    requires scale { IsLawfulScale k }
    requires output_price { unsigned_abs a ≤ MAX_UNIT_PRICE }
    requires reserve_price { unsigned_abs b ≤ MAX_UNIT_PRICE }
    requires caps { (i : ℕ) → i < 4 → unsigned_abs (slice_index_or caps.now i (pos 0)) ≤ MAX_CAP }
    ensures term { (points : List Point) (i : ℕ) → IsLowerHull points curve.now → i < 4
        → IsCellTerm points k a b (slice_index_or caps.now i (pos 0)) (slice_index_or result i None) }
    ensures size { (i : ℕ) → i < 4 → IfSome (slice_index_or result i None) (λ m. unsigned_abs m ≤ MAX_TERM) }
{
    let prices = freed(k, a, b);
    let corners = curve.corners();
    let place = least_place(corners, &prices);
    [
        cell_term(corners, &prices, place, caps[0]),
        cell_term(corners, &prices, place, caps[1]),
        cell_term(corners, &prices, place, caps[2]),
        cell_term(corners, &prices, place, caps[3]),
    ]
}

// The term of a cell of this cap, by the place of the least corner.
fn cell_term(corners: &[Point], prices: &Prices, place: usize, cap: i64) -> Option<i128>
    requires lawful { AreLawfulCorners corners.now }
    requires prices { AreLawfulPrices prices.now.k prices.now.a prices.now.b }
    requires place { IsLeastPlace corners.now prices.now.k prices.now.a place }
    requires cap { unsigned_abs cap ≤ MAX_CAP }
    ensures term { (points : List Point) (a b : ℤ) → IsLowerHull points corners.now
        → AreFreed prices.now.k a b prices.now.k prices.now.a prices.now.b → IsCellTerm points prices.now.k a b cap result }
    ensures size { IfSome result (λ m. unsigned_abs m ≤ MAX_TERM) }
{
    if cap < 0 {
        return None;
    }
    Some(reserved(corners, prices, place, cap))
}

// The same, of a cap that isn't below 0.
fn reserved(corners: &[Point], prices: &Prices, place: usize, cap: i64) -> i128
    requires lawful { AreLawfulCorners corners.now }
    requires prices { AreLawfulPrices prices.now.k prices.now.a prices.now.b }
    requires place { IsLeastPlace corners.now prices.now.k prices.now.a place }
    requires cap { unsigned_abs cap ≤ MAX_CAP }
    requires sign { pos 0 ≤ℤ cap }
    ensures term { (points : List Point) (a b : ℤ) → IsLowerHull points corners.now
        → AreFreed prices.now.k a b prices.now.k prices.now.a prices.now.b → IsTerm points prices.now.k a b cap result }
    ensures size { unsigned_abs result ≤ MAX_TERM }
{
    let reserve = product(prices.b, i128::from(cap));
    sum(least_cost(corners, prices, place, cap), reserve)
}

// The term without reserve.
fn least_cost(corners: &[Point], prices: &Prices, place: usize, cap: i64) -> i128
    requires lawful { AreLawfulCorners corners.now }
    requires prices { AreLawfulPrices prices.now.k prices.now.a prices.now.b }
    requires place { IsLeastPlace corners.now prices.now.k prices.now.a place }
    requires cap { unsigned_abs cap ≤ MAX_CAP }
    requires sign { pos 0 ≤ℤ cap }
    ensures term { (points : List Point) → IsLowerHull points corners.now → IsTerm points prices.now.k prices.now.a (pos 0) cap result }
    ensures size { unsigned_abs result ≤ MAX_LEAST }
{
    if is_within(corners, place, cap) {
        corner_cost(corners, prices, place)
    } else {
        segment_cost(corners, prices, cap_place(corners, place, cap), cap)
    }
}

// The place of the corner of least cost, found by halving.
pub(crate) fn least_place(corners: &[Point], prices: &Prices) -> usize
    requires lawful { AreLawfulCorners corners.now }
    requires prices { AreLawfulPrices prices.now.k prices.now.a prices.now.b }
    ensures { IsLeastPlace corners.now prices.now.k prices.now.a result }
{
    let mut low = 0;
    let mut high = corners.len() - 1;
    while low < high {
        let middle = low + (high - low) / 2;
        if falls(corners, prices, middle) {
            low = middle + 1;
        } else {
            high = middle;
        }
    }
    low
}

// Whether the next corner costs less than this one.
fn falls(corners: &[Point], prices: &Prices, place: usize) -> bool
    requires lawful { AreLawfulCorners corners.now }
    requires prices { AreLawfulPrices prices.now.k prices.now.a prices.now.b }
    requires within { suc place < length corners.now }
    ensures { result ≡ int_lt (corner_cost_of corners.now prices.now.k prices.now.a (suc place)) (corner_cost_of corners.now prices.now.k prices.now.a place) }
{
    corner_cost(corners, prices, place + 1) < corner_cost(corners, prices, place)
}

// The corner left of one right of the cap from which the segment holds the cap, found by halving.
fn cap_place(corners: &[Point], place: usize, cap: i64) -> usize
    requires lawful { AreLawfulCorners corners.now }
    requires within { place < length corners.now }
    requires sign { pos 0 ≤ℤ cap }
    requires right { cap <ℤ output_of corners.now place }
    ensures { HoldsCap corners.now cap result place }
{
    let mut low = 0;
    let mut high = place;
    while high - low > 1 {
        let middle = low + (high - low) / 2;
        if is_within(corners, middle, cap) {
            low = middle;
        } else {
            high = middle;
        }
    }
    low
}

// The cost on the segment from a corner at the cap, rounded down.
fn segment_cost(corners: &[Point], prices: &Prices, left: usize, cap: i64) -> i128
    requires lawful { AreLawfulCorners corners.now }
    requires prices { AreLawfulPrices prices.now.k prices.now.a prices.now.b }
    requires cap { unsigned_abs cap ≤ MAX_CAP }
    requires segment { LiesOnSegment corners.now cap left }
    ensures floor { IsFloor
        ((corner_cost_of corners.now prices.now.k prices.now.a (suc left) -ℤ corner_cost_of corners.now prices.now.k prices.now.a left) *ℤ over_of corners.now cap left)
        (run_of corners.now left)
        (result -ℤ corner_cost_of corners.now prices.now.k prices.now.a left) }
    ensures size { unsigned_abs result ≤ MAX_LEAST }
{
    let price = product(prices.a, over(corners, left, cap));
    let level = sum(corner_cost(corners, prices, left), price);
    sum(level, rise_down(corners, prices, left, cap))
}

// How far the segment's scaled cost rises until the cap, rounded down.
fn rise_down(corners: &[Point], prices: &Prices, left: usize, cap: i64) -> i128
    requires lawful { AreLawfulCorners corners.now }
    requires prices { AreLawfulPrices prices.now.k prices.now.a prices.now.b }
    requires cap { unsigned_abs cap ≤ MAX_CAP }
    requires segment { LiesOnSegment corners.now cap left }
    ensures floor { IsFloor ((prices.now.k *ℤ rise_of corners.now left) *ℤ over_of corners.now cap left) (run_of corners.now left) result }
    ensures size { unsigned_abs result ≤ MAX_RISE }
{
    let rising = product(rise(corners, prices, left), over(corners, left, cap));
    floor_div(rising, run(corners, left))
}

// The scaled rise of the segment from a corner.
fn rise(corners: &[Point], prices: &Prices, left: usize) -> i128
    requires lawful { AreLawfulCorners corners.now }
    requires prices { AreLawfulPrices prices.now.k prices.now.a prices.now.b }
    requires within { suc left < length corners.now }
    ensures value { result ≡ prices.now.k *ℤ rise_of corners.now left }
    ensures size { unsigned_abs result ≤ MAX_RISE }
{
    difference(
        scaled(prices.k, corners[left + 1].cost),
        scaled(prices.k, corners[left].cost),
    )
}

// Its run.
fn run(corners: &[Point], left: usize) -> i128
    requires lawful { AreLawfulCorners corners.now }
    requires within { suc left < length corners.now }
    ensures value { result ≡ run_of corners.now left }
    ensures size { unsigned_abs result ≤ 4 * MAX_POWER }
{
    difference(output(corners, left + 1), output(corners, left))
}

// The reduced cost of a corner without reserve.
fn corner_cost(corners: &[Point], prices: &Prices, place: usize) -> i128
    requires lawful { AreLawfulCorners corners.now }
    requires prices { AreLawfulPrices prices.now.k prices.now.a prices.now.b }
    requires within { place < length corners.now }
    ensures value { result ≡ corner_cost_of corners.now prices.now.k prices.now.a place }
    ensures size { unsigned_abs result ≤ MAX_CORNER_COST }
{
    let price = product(prices.a, output(corners, place));
    sum(scaled(prices.k, corners[place].cost), price)
}

// How far a corner lies left of the cap.
fn over(corners: &[Point], place: usize, cap: i64) -> i128
    requires lawful { AreLawfulCorners corners.now }
    requires within { place < length corners.now }
    requires cap { unsigned_abs cap ≤ MAX_CAP }
    ensures value { result ≡ over_of corners.now cap place }
    ensures size { unsigned_abs result ≤ MAX_OVER }
{
    difference(i128::from(cap), output(corners, place))
}

// Whether a corner lies at or left of the cap.
fn is_within(corners: &[Point], place: usize, cap: i64) -> bool
    requires lawful { AreLawfulCorners corners.now }
    requires within { place < length corners.now }
    ensures { result ≡ int_le (output_of corners.now place) cap }
{
    output(corners, place) <= i128::from(cap)
}

// A corner's output above the first one's.
fn output(corners: &[Point], place: usize) -> i128
    requires lawful { AreLawfulCorners corners.now }
    requires within { place < length corners.now }
    ensures value { result ≡ output_of corners.now place }
    ensures size { unsigned_abs result ≤ 2 * MAX_POWER }
{
    difference(i128::from(corners[place].mw), i128::from(corners[0].mw))
}
