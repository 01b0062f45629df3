//! Runs of steps of one slope, and where a step lies among them.

ghost use Rattle.std.specs.Prelude.{◌≡◌, ℕ, ◌+◌, ◌*◌, ◌^◌, ◌<◌, ◌≤◌, ◌*ℤ◌, ◌<ℤ◌, ◌≤ℤ◌, pos, length, take, unsigned_abs};
ghost use Rattle.uc_model.specs.Prelude.{sum_below};
ghost use Rattle.step_functions.specs.Runs.{run_of, slope_at, steps_of};
ghost use Rattle.step_functions.specs.Functions.{MAX_VALUE};
ghost use Rattle.step_functions.specs.inside.Edits.{AreBelow};
ghost use Rattle.step_functions.specs.inside.Kept.{AreRising, HaveSteps};
ghost use Rattle.step_functions.specs.inside.Places.{IsPlaceOf};

/// Steps of one slope: so many watts in a row over each of which a function rises by the slope.
#[derive(Clone, Copy, Debug)]
pub struct Run {
    pub length: u64,
    pub slope: i128,
}

/// Where a step lies: in the run of this number, so many steps behind its first one.
#[derive(Clone, Copy)]
pub(crate) struct Place {
    pub run: usize,
    pub offset: u64,
}

/// How many steps the runs have.
pub(crate) fn steps(runs: &[Run]) -> u64
    requires { steps_of runs.now < 2 ^ 64 }
    ensures { result ≡ steps_of runs.now }
{
    runs.iter().map(|run| run.length).sum()
}

/// The place of a step; that past the last run where there are as many steps before it as there are.
pub(crate) fn place_of(runs: &[Run], step: u64) -> Place
    requires { step ≤ steps_of runs.now }
    ensures { IsPlaceOf runs.now step result }
{
    let mut rest = step;
    for (number, run) in runs.iter().enumerate() {
        if rest < run.length {
            return Place {
                run: number,
                offset: rest,
            };
        }
        rest -= run.length;
    }
    Place {
        run: runs.len(),
        offset: 0,
    }
}

/// How many runs stand before the first whose slope isn't below this.
pub(crate) fn runs_below(runs: &[Run], slope: i128) -> usize
    ensures within { result ≤ length runs.now }
    ensures below { (i : ℕ) → i < result → (run_of runs.now i).slope <ℤ slope }
    ensures next { result < length runs.now → slope ≤ℤ (run_of runs.now result).slope }
{
    for (number, run) in runs.iter().enumerate() {
        if run.slope >= slope {
            return number;
        }
    }
    runs.len()
}

/// How many steps there are before the first whose slope isn't below this.
pub(crate) fn steps_below(runs: &[Run], slope: i128) -> u64
    requires lengths { HaveSteps runs.now }
    requires rising { AreRising runs.now }
    requires fits { steps_of runs.now < 2 ^ 64 }
    ensures { AreBelow runs.now slope result }
{
    steps(&runs[..runs_below(runs, slope)])
}

// How far so many steps of a run's slope rise together.
fn climb(run: &Run, count: u64) -> i128
    requires { unsigned_abs (run.now.slope *ℤ pos count) < 2 ^ 127 }
    ensures { result ≡ run.now.slope *ℤ pos count }
{
    run.slope * i128::from(count)
}

/// How far the first `count` steps rise together.
pub(crate) fn rise(runs: &[Run], count: u64) -> i128
    requires within { count ≤ steps_of runs.now }
    requires size { (k : ℕ) → k ≤ steps_of runs.now → unsigned_abs (sum_below k (slope_at runs.now)) ≤ 2 * MAX_VALUE }
    ensures { result ≡ sum_below count (slope_at runs.now) }
{
    let mut rest = count;
    let mut sum = 0;
    for run in runs {
        if rest <= run.length {
            return sum + climb(run, rest);
        }
        sum += climb(run, run.length);
        rest -= run.length;
    }
    sum
}
