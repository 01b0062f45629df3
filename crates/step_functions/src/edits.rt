//! Edits of runs, by what they leave of the steps.

ghost use Rattle.std.specs.Prelude.{◌≡◌, ℕ, ◌+◌, ◌*◌, ◌^◌, ◌<◌, ◌≤◌, ◌++◌, ◌∷◌, List, All, length, take, drop, map, pos, unsigned_abs, vec_len, vec_capacity};
ghost use Rattle.step_functions.specs.Runs.{run_of, slope_at, steps_of};
ghost use Rattle.step_functions.specs.inside.Edits.{with_slope, SameSteps, AreLevelled, AreAdded, IsSpread, IsSteeper};
ghost use Rattle.step_functions.specs.inside.Kept.{AreRising, HaveSteps, HaveSmallSlopes};

use crate::runs::{Run, place_of, runs_below, steps};

/// Adds a slope to each of the runs.
pub(crate) fn steepen(runs: &mut [Run], slope: i128)
    requires { All (λ run. unsigned_abs run.slope + unsigned_abs slope < 2 ^ 127) runs.old }
    ensures { runs.new ≡ map (with_slope slope) runs.old }
{
    for run in runs.iter_mut() {
        run.slope += slope;
    }
}

/// Puts a run in front of the one of this number.
pub(crate) fn insert(runs: &mut Vec<Run>, number: usize, run: Run)
    requires within { number ≤ vec_len runs.old }
    requires room { vec_len runs.old < vec_capacity runs.old }
    ensures runs { runs.new.items ≡ take number runs.old.items ++ run ∷ drop number runs.old.items }
    ensures capacity { vec_capacity runs.new ≡ vec_capacity runs.old }
{
    match runs.insert(number, run) {
        Ok(()) => {}
        Err(_) => unreachable!(),
    }
}

/// Makes the runs the others.
pub(crate) fn copy_runs(runs: &mut Vec<Run>, others: &[Run])
    requires room { length others.now ≤ vec_capacity runs.old }
    ensures runs { runs.new.items ≡ others.now }
    ensures capacity { vec_capacity runs.new ≡ vec_capacity runs.old }
{
    runs.clear();
    for run in others {
        runs.push_reserved(*run);
    }
}

// Makes two runs of one, the first of them with so many of its steps.
fn halve(runs: &mut Vec<Run>, number: usize, length: u64)
    requires within { number < vec_len runs.old }
    requires some { 1 ≤ length }
    requires rest { length < (run_of runs.old.items number).length }
    requires room { vec_len runs.old < vec_capacity runs.old }
    requires lengths { HaveSteps runs.old.items }
    ensures same { SameSteps runs.old.items runs.new.items }
    ensures front { take number runs.new.items ≡ take number runs.old.items }
    ensures before { steps_of (take (number + 1) runs.new.items) ≡ steps_of (take number runs.old.items) + length }
    ensures lengths { HaveSteps runs.new.items }
    ensures count { vec_len runs.new ≡ vec_len runs.old + 1 }
    ensures capacity { vec_capacity runs.new ≡ vec_capacity runs.old }
{
    let mut front = runs[number];
    runs[number].length = front.length - length;
    front.length = length;
    insert(runs, number, front);
}

/// Makes a run begin `step` steps behind the beginning of the run `from`, and answers its number. A run is made two where
/// none begins there.
pub(crate) fn divide(runs: &mut Vec<Run>, from: usize, step: u64) -> usize
    requires from { from ≤ vec_len runs.old }
    requires within { step ≤ steps_of (drop from runs.old.items) }
    requires lengths { HaveSteps runs.old.items }
    requires room { vec_len runs.old < vec_capacity runs.old }
    ensures after { from ≤ result }
    ensures within { result ≤ vec_len runs.old }
    ensures begins { steps_of (take result runs.new.items) ≡ steps_of (take from runs.old.items) + step }
    ensures front { take from runs.new.items ≡ take from runs.old.items }
    ensures same { SameSteps runs.old.items runs.new.items }
    ensures lengths { HaveSteps runs.new.items }
    ensures one { vec_len runs.new ≤ vec_len runs.old + 1 }
    ensures left { vec_len runs.old ≤ vec_len runs.new }
    ensures behind { vec_len runs.new ≤ vec_len runs.old + result }
    ensures capacity { vec_capacity runs.new ≡ vec_capacity runs.old }
{
    let place = place_of(&runs[from..], step);
    let number = from + place.run;
    if place.offset == 0 {
        return number;
    }
    halve(runs, number, place.offset);
    number + 1
}

/// Takes away the first runs, so many.
pub(crate) fn remove_first(runs: &mut Vec<Run>, count: usize)
    requires { count ≤ vec_len runs.old }
    ensures runs { runs.new.items ≡ drop count runs.old.items }
    ensures capacity { vec_capacity runs.new ≡ vec_capacity runs.old }
{
    runs.copy_within(count.., 0);
    runs.truncate(runs.len() - count);
}

/// Puts level steps, so many, behind those that fall.
pub(crate) fn spread(runs: &mut Vec<Run>, length: u64)
    requires lengths { HaveSteps runs.old.items }
    requires rising { AreRising runs.old.items }
    requires fits { steps_of runs.old.items + length < 2 ^ 64 }
    requires room { vec_len runs.old < vec_capacity runs.old }
    ensures spread { IsSpread runs.old.items runs.new.items length }
    ensures lengths { HaveSteps runs.new.items }
    ensures one { vec_len runs.new ≤ vec_len runs.old + 1 }
    ensures capacity { vec_capacity runs.new ≡ vec_capacity runs.old }
{
    let falling = runs_below(runs, 0);
    insert_level(runs, falling, length);
}

// Puts level steps, so many, in front of the run of this number.
fn insert_level(runs: &mut Vec<Run>, number: usize, length: u64)
    requires within { number ≤ vec_len runs.old }
    requires lengths { HaveSteps runs.old.items }
    requires fits { steps_of runs.old.items + length < 2 ^ 64 }
    requires room { vec_len runs.old < vec_capacity runs.old }
    ensures level { AreLevelled runs.old.items runs.new.items (steps_of (take number runs.old.items)) length }
    ensures lengths { HaveSteps runs.new.items }
    ensures one { vec_len runs.new ≤ vec_len runs.old + 1 }
    ensures capacity { vec_capacity runs.new ≡ vec_capacity runs.old }
{
    if length == 0 {
        return;
    }
    if number < runs.len() && runs[number].slope == 0 {
        runs[number].length += length;
    } else {
        insert(runs, number, Run { length, slope: 0 });
    }
}

/// Adds a slope to so many steps from the beginning of the run `from` on, and answers the number of the run behind them.
pub(crate) fn add_run(runs: &mut Vec<Run>, from: usize, added: Run) -> usize
    requires from { from ≤ vec_len runs.old }
    requires within { added.length ≤ steps_of (drop from runs.old.items) }
    requires lengths { HaveSteps runs.old.items }
    requires sizes { (k : ℕ) → k < added.length → unsigned_abs (slope_at runs.old.items (steps_of (take from runs.old.items) + k)) + unsigned_abs added.slope < 2 ^ 127 }
    requires room { vec_len runs.old < vec_capacity runs.old }
    ensures within { result ≤ vec_len runs.new }
    ensures begins { steps_of (take result runs.new.items) ≡ steps_of (take from runs.old.items) + added.length }
    ensures steeper { IsSteeper runs.old.items runs.new.items (steps_of (take from runs.old.items)) added.length added.slope }
    ensures lengths { HaveSteps runs.new.items }
    ensures one { vec_len runs.new ≤ vec_len runs.old + 1 }
    ensures capacity { vec_capacity runs.new ≡ vec_capacity runs.old }
{
    let end = divide(runs, from, added.length);
    steepen(&mut runs[from..end], added.slope);
    end
}

/// Adds to each step the one of the others that lies `skipped` further.
pub(crate) fn add_runs(runs: &mut Vec<Run>, others: &[Run], skipped: u64)
    requires within { skipped + steps_of runs.old.items ≤ steps_of others.now }
    requires fits { steps_of others.now < 2 ^ 64 }
    requires lengths { HaveSteps runs.old.items }
    requires other_lengths { HaveSteps others.now }
    requires sizes { HaveSmallSlopes runs.old.items }
    requires other_sizes { HaveSmallSlopes others.now }
    requires room { vec_len runs.old + length others.now < vec_capacity runs.old }
    ensures added { AreAdded runs.old.items others.now runs.new.items skipped }
    ensures lengths { HaveSteps runs.new.items }
    ensures count { vec_len runs.new ≤ vec_len runs.old + length others.now }
    ensures capacity { vec_capacity runs.new ≡ vec_capacity runs.old }
{
    let place = place_of(others, skipped);
    add_from(runs, &others[place.run..], place.offset);
}

// Adds to each step the one of the others that lies `used` further, of which the first run has more.
fn add_from(runs: &mut Vec<Run>, others: &[Run], mut used: u64)
    requires first { 0 < length others.now → used < (run_of others.now 0).length }
    requires within { used + steps_of runs.old.items ≤ steps_of others.now }
    requires fits { steps_of others.now < 2 ^ 64 }
    requires lengths { HaveSteps runs.old.items }
    requires other_lengths { HaveSteps others.now }
    requires sizes { HaveSmallSlopes runs.old.items }
    requires other_sizes { HaveSmallSlopes others.now }
    requires room { vec_len runs.old + length others.now < vec_capacity runs.old }
    ensures added { AreAdded runs.old.items others.now runs.new.items used }
    ensures lengths { HaveSteps runs.new.items }
    ensures count { vec_len runs.new ≤ vec_len runs.old + length others.now }
    ensures capacity { vec_capacity runs.new ≡ vec_capacity runs.old }
{
    let mut from = 0;
    let mut rest = steps(runs);
    for other in others {
        let length = rest.min(other.length - used);
        let added = Run {
            length,
            slope: other.slope,
        };
        from = add_run(runs, from, added);
        rest -= length;
        used = 0;
    }
}
