//! Convex functions on a whole interval of places.

ghost use Rattle.std.specs.Prelude.{◌≡◌, ◌↔◌, ℕ, ℤ, ◌+◌, ◌-◌, ◌*◌, ◌<◌, ◌≤◌, ◌+ℤ◌, ◌-ℤ◌, ◌*ℤ◌, ◌≤ℤ◌, pos, false, [], IfOk, IsTrue, unsigned_abs};
ghost use Rattle.std.specs.Int.{int_max, int_min};
ghost use Rattle.step_functions.specs.Runs.{slope_at, steps_of};
ghost use Rattle.step_functions.specs.Functions.{IsLeastBetween, IsPlace, IsSmall, IsWithin, last_place, run_count, shortfall, value_at};
ghost use Rattle.step_functions.specs.inside.Kept.{height};

use crate::edits::{add_run, add_runs, copy_runs, divide, remove_first, spread, steepen};
use crate::runs::{Run, rise, steps, steps_below};
use std::alloc::Global;
use std::marker::Model;
use uc_model::NoMemory;

/// A convex function on an interval of whole places, linear between whole breakpoints, with whole slopes. No call but
/// `with_room` takes memory: each says how many runs of one slope it may add, for which there has to be room.
///
/// Contracts see its first place, its value there, its runs, and for how many of these there is room: by these
/// `last_place` and `value_at` tell where it ends and its value at each place.
#[derive(Drop)]
pub struct ConvexFunction {
    first: i64,
    value: i128,
    runs: Vec<Run>,
}

impl Model for ConvexFunction {
    ghost use Rattle.step_functions.specs.Functions.{Steps};

    ghost Value = { Steps };

    ghost use Rattle.std.specs.Prelude.{vec_capacity};
    ghost use Rattle.step_functions.specs.inside.Kept.{IsKept};

    ghost view = { λ f. record { first = f.first; value = f.value; runs = f.runs.items; room = vec_capacity f.runs } };

    ghost invariant = { λ f. IsKept (record { first = f.first; value = f.value; runs = f.runs.items; room = vec_capacity f.runs }) };
}

/// The least value of a function, and the first and the last place where it has it.
#[derive(Clone, Copy, Debug)]
pub struct Bottom {
    pub value: i128,
    pub first: i64,
    pub last: i64,
}

// What a value becomes so many watts along a slope.
fn along(value: i128, slope: i128, watts: i64) -> i128
    requires own { IsSmall value }
    requires reached { IsSmall (value +ℤ slope *ℤ watts) }
    ensures { result ≡ value +ℤ slope *ℤ watts }
{
    value + slope * i128::from(watts)
}

impl ConvexFunction {
    /// The function that is 0 at the place 0 alone, with room for `room` runs. The only error is `NoMemory`.
    pub fn with_room(alloc: Global, room: usize) -> Result<ConvexFunction, NoMemory>
        ensures { IfOk result (λ f. f ≡ record { first = pos 0; value = pos 0; runs = []; room = room }) }
    {
        let runs = Vec::with_capacity(alloc, room)?;
        Ok(ConvexFunction {
            first: 0,
            value: 0,
            runs,
        })
    }

    /// The first place of the interval.
    pub fn first(&self) -> i64
        ensures value { result ≡ self.now.first }
        ensures within { IsWithin result }
    {
        self.first
    }

    /// The last place of the interval.
    pub fn last(&self) -> i64
        ensures value { result ≡ last_place self.now }
        ensures within { IsWithin result }
    {
        self.first + steps(&self.runs) as i64
    }

    /// The value at a place of the interval.
    pub fn at(&self, place: i64) -> i128
        requires { IsPlace self.now place }
        ensures { result ≡ value_at self.now place }
    {
        self.height(self.steps_to(place))
    }

    /// The least value, and where the function has it.
    pub fn least(&self) -> Bottom
        ensures first { IsPlace self.now result.first }
        ensures last { IsPlace self.now result.last }
        ensures reached { value_at self.now result.first ≡ result.value }
        ensures least { (p : ℤ) → IsPlace self.now p → result.value ≤ℤ value_at self.now p }
        ensures flat { (p : ℤ) → IsPlace self.now p → value_at self.now p ≡ result.value ↔ ((result.first ≤ℤ p) × (p ≤ℤ result.last)) }
    {
        let falling = steps_below(&self.runs, 0);
        let level = steps_below(&self.runs, 1);
        Bottom {
            value: self.height(falling),
            first: self.first + falling as i64,
            last: self.first + level as i64,
        }
    }

    /// A place where the function has its least value when one of this slope is added.
    pub fn least_place(&self, slope: i128) -> i64
        requires { IsSmall slope }
        ensures place { IsPlace self.now result }
        ensures least { (p : ℤ) → IsPlace self.now p → (value_at self.now result +ℤ slope *ℤ result) ≤ℤ (value_at self.now p +ℤ slope *ℤ p) }
    {
        self.first + steps_below(&self.runs, -slope) as i64
    }

    /// Makes it the function that has this value at this place alone.
    pub fn set_point(&mut self, place: i64, value: i128)
        requires place { IsWithin place }
        requires value { IsSmall value }
        ensures point { self.new ≡ record self.old { first = place; value = value; runs = [] } }
        ensures last { last_place self.new ≡ place }
        ensures value { value_at self.new place ≡ value }
    {
        self.runs.clear();
        self.first = place;
        self.value = value;
    }

    /// Makes it the other function. It takes a run for each of the other's.
    pub fn copy_from(&mut self, other: &ConvexFunction)
        requires room { run_count other.now ≤ self.old.room }
        ensures { self.new ≡ record other.now { room = self.old.room } }
    {
        self.first = other.first;
        self.value = other.value;
        copy_runs(&mut self.runs, &other.runs);
    }

    /// Continues it on the right by `length` steps of a slope that is not below any before. It takes a run.
    pub fn extend(&mut self, length: u64, slope: i128)
        requires length { 1 ≤ length }
        requires rising { (k : ℕ) → k < steps_of self.old.runs → slope_at self.old.runs k ≤ℤ slope }
        requires place { IsWithin (last_place self.old +ℤ pos length) }
        requires size { IsSmall (value_at self.old (last_place self.old) +ℤ pos length *ℤ slope) }
        requires room { run_count self.old < self.old.room }
        ensures first { self.new.first ≡ self.old.first }
        ensures last { last_place self.new ≡ last_place self.old +ℤ pos length }
        ensures before { (p : ℤ) → IsPlace self.old p → value_at self.new p ≡ value_at self.old p }
        ensures after { (k : ℕ) → k ≤ length → value_at self.new (last_place self.old +ℤ pos k) ≡ value_at self.old (last_place self.old) +ℤ pos k *ℤ slope }

        // The same of its steps.
        ensures value { self.new.value ≡ self.old.value }
        ensures old_steps { (k : ℕ) → k < steps_of self.old.runs → slope_at self.new.runs k ≡ slope_at self.old.runs k }
        ensures new_steps { (k : ℕ) → k < length → slope_at self.new.runs (steps_of self.old.runs + k) ≡ slope }
        ensures runs { run_count self.new ≡ run_count self.old + 1 }
        ensures room { self.new.room ≡ self.old.room }
    {
        self.runs.push_reserved(Run { length, slope });
    }

    /// Adds a constant.
    pub fn add_constant(&mut self, constant: i128)
        requires { (p : ℤ) → IsPlace self.old p → IsSmall (value_at self.old p +ℤ constant) }
        ensures first { self.new.first ≡ self.old.first }
        ensures last { last_place self.new ≡ last_place self.old }
        ensures value { (p : ℤ) → IsPlace self.new p → value_at self.new p ≡ value_at self.old p +ℤ constant }
        ensures runs { run_count self.new ≡ run_count self.old }
        ensures room { self.new.room ≡ self.old.room }
    {
        self.value += constant;
    }

    /// Adds the function of a slope that is 0 at the place 0.
    pub fn add_slope(&mut self, slope: i128)
        requires { (p : ℤ) → IsPlace self.old p → IsSmall (value_at self.old p +ℤ slope *ℤ p) }
        ensures first { self.new.first ≡ self.old.first }
        ensures last { last_place self.new ≡ last_place self.old }
        ensures value { (p : ℤ) → IsPlace self.new p → value_at self.new p ≡ value_at self.old p +ℤ slope *ℤ p }
        ensures runs { run_count self.new ≡ run_count self.old }
        ensures room { self.new.room ≡ self.old.room }
    {
        self.value = along(self.value, slope, self.first);
        steepen(&mut self.runs, slope);
    }

    /// Adds `price` for each watt by which a place lies below `place`. It takes at most one run.
    pub fn add_shortfall(&mut self, place: i64, price: i128)
        requires price { pos 0 ≤ℤ price }
        requires place { IsWithin place }
        requires size { (p : ℤ) → IsPlace self.old p → IsSmall (value_at self.old p +ℤ price *ℤ shortfall place p) }
        requires room { run_count self.old < self.old.room }
        ensures first { self.new.first ≡ self.old.first }
        ensures last { last_place self.new ≡ last_place self.old }
        ensures value { (p : ℤ) → IsPlace self.new p → value_at self.new p ≡ value_at self.old p +ℤ price *ℤ shortfall place p }
        ensures runs { run_count self.new ≤ run_count self.old + 1 }
        ensures room { self.new.room ≡ self.old.room }
    {
        if place <= self.first {
            return;
        }
        let short = place - self.first;
        self.value = along(self.value, price, short);
        let cheaper = Run {
            length: steps(&self.runs).min(short as u64),
            slope: -price,
        };
        let _ = add_run(&mut self.runs, 0, cheaper);
    }

    /// Adds another function, on the interval that both have. While it works it takes a run for each of the other's and one
    /// more; it keeps no more than one for each of both.
    pub fn add(&mut self, other: &ConvexFunction)
        requires after { self.old.first ≤ℤ last_place other.now }
        requires before { other.now.first ≤ℤ last_place self.old }
        requires size { (p : ℤ) → IsPlace self.old p → IsPlace other.now p → IsSmall (value_at self.old p +ℤ value_at other.now p) }
        requires room { run_count self.old + run_count other.now < self.old.room }
        ensures first { self.new.first ≡ int_max self.old.first other.now.first }
        ensures last { last_place self.new ≡ int_min (last_place self.old) (last_place other.now) }
        ensures value { (p : ℤ) → IsPlace self.new p → value_at self.new p ≡ value_at self.old p +ℤ value_at other.now p }
        ensures runs { run_count self.new ≤ run_count self.old + run_count other.now }
        ensures room { self.new.room ≡ self.old.room }
    {
        let _ = self.cut(other.first(), other.last());
        self.add_within(other);
    }

    /// The function of the least values that are within a ramp: at each place that of the places at most `up` below it and
    /// at most `down` above it. It takes at most one run.
    pub fn ramp(&mut self, up: i64, down: i64)
        requires up { pos 0 ≤ℤ up }
        requires down { pos 0 ≤ℤ down }
        requires first { IsWithin (self.old.first -ℤ down) }
        requires last { IsWithin (last_place self.old +ℤ up) }
        requires room { run_count self.old < self.old.room }
        ensures first { self.new.first ≡ self.old.first -ℤ down }
        ensures last { last_place self.new ≡ last_place self.old +ℤ up }
        ensures least { (p : ℤ) → IsPlace self.new p → IsLeastBetween self.old (p -ℤ up) (p +ℤ down) (value_at self.new p) }
        ensures runs { run_count self.new ≤ run_count self.old + 1 }
        ensures room { self.new.room ≡ self.old.room }
    {
        spread(&mut self.runs, (up + down) as u64);
        self.first -= down;
    }

    /// Cuts it to the places from `low` to `high`, and answers whether it has one there; where it has none it stays as it is.
    /// While it works it takes one run more; it keeps no more than it has.
    pub fn cut(&mut self, low: i64, high: i64) -> bool
        requires low { IsWithin low }
        requires high { IsWithin high }
        requires room { run_count self.old < self.old.room }
        ensures some { IsTrue result ↔ ((low ≤ℤ high) × (self.old.first ≤ℤ high) × (low ≤ℤ last_place self.old)) }
        ensures none { result ≡ false → self.new ≡ self.old }
        ensures first { IsTrue result → self.new.first ≡ int_max self.old.first low }
        ensures last { IsTrue result → last_place self.new ≡ int_min (last_place self.old) high }
        ensures value { IsTrue result → (p : ℤ) → IsPlace self.new p → value_at self.new p ≡ value_at self.old p }
        ensures runs { run_count self.new ≤ run_count self.old }
        ensures room { self.new.room ≡ self.old.room }
    {
        let first = self.first();
        let last = self.last();
        if high < low || high < first || last < low {
            return false;
        }
        if low <= first && last <= high {
            return true;
        }
        self.cut_right(high.min(last));
        self.cut_left(low.max(first));
        true
    }

    // Adds another function that has each of its places.
    fn add_within(&mut self, other: &ConvexFunction)
        requires after { other.now.first ≤ℤ self.old.first }
        requires before { last_place self.old ≤ℤ last_place other.now }
        requires size { (p : ℤ) → IsPlace self.old p → IsSmall (value_at self.old p +ℤ value_at other.now p) }
        requires room { run_count self.old + run_count other.now < self.old.room }
        ensures first { self.new.first ≡ self.old.first }
        ensures last { last_place self.new ≡ last_place self.old }
        ensures value { (p : ℤ) → IsPlace self.new p → value_at self.new p ≡ value_at self.old p +ℤ value_at other.now p }
        ensures runs { run_count self.new ≤ run_count self.old + run_count other.now }
        ensures room { self.new.room ≡ self.old.room }
    {
        let skipped = other.steps_to(self.first);
        self.value += other.height(skipped);
        add_runs(&mut self.runs, &other.runs, skipped);
    }

    // How many steps a place lies from the first one.
    fn steps_to(&self, place: i64) -> u64
        requires { IsPlace self.now place }
        ensures within { result ≤ steps_of self.now.runs }
        ensures value { place ≡ self.now.first +ℤ pos result }
    {
        (place - self.first) as u64
    }

    // The value so many steps from the first place.
    fn height(&self, count: u64) -> i128
        requires { count ≤ steps_of self.now.runs }
        ensures value { result ≡ height self.now.value self.now.runs count }
        ensures small { IsSmall result }
    {
        self.value + rise(&self.runs, count)
    }

    // Cuts off the places behind one of its own.
    fn cut_right(&mut self, high: i64)
        requires place { IsPlace self.old high }
        requires room { run_count self.old < self.old.room }
        ensures first { self.new.first ≡ self.old.first }
        ensures last { last_place self.new ≡ high }
        ensures value { (p : ℤ) → IsPlace self.new p → value_at self.new p ≡ value_at self.old p }
        ensures runs { run_count self.new ≤ run_count self.old }
        ensures room { self.new.room ≡ self.old.room }
    {
        let kept = self.steps_to(high);
        let count = divide(&mut self.runs, 0, kept);
        self.runs.truncate(count);
    }

    // Cuts off the places before one of its own.
    fn cut_left(&mut self, low: i64)
        requires place { IsPlace self.old low }
        requires room { run_count self.old < self.old.room }
        ensures first { self.new.first ≡ low }
        ensures last { last_place self.new ≡ last_place self.old }
        ensures value { (p : ℤ) → IsPlace self.new p → value_at self.new p ≡ value_at self.old p }
        ensures runs { run_count self.new ≤ run_count self.old }
        ensures room { self.new.room ≡ self.old.room }
    {
        let skipped = self.steps_to(low);
        if skipped == 0 {
            return;
        }
        self.value = self.height(skipped);
        let count = divide(&mut self.runs, 0, skipped);
        remove_first(&mut self.runs, count);
        self.first = low;
    }
}
