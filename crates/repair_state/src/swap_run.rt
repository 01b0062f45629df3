//! Runs of periods over which a unit gives more and another as much less: where that gains, and how far it goes.
//!
//! Gains are rates, those of a watt in each period of a run added up. The spare of a period is by how much its reserve is more than wanted.

use crate::leeway::{FREE, Leeway};
use crate::window::Window;

/// The periods from `first` to `last`, and what a watt gains in all of them.
#[derive(Clone, Copy)]
pub(crate) struct Run {
    pub first: usize,
    pub last: usize,
    pub gain: i64,
}

/// A run that gains nothing.
pub(crate) const NO_RUN: Run = Run {
    first: 0,
    last: 0,
    gain: 0,
};

// The leeway of a period, and `FREE` past the last one.
fn leeway_at(leeways: &[Leeway], t: usize) -> Leeway {
    if t < leeways.len() { leeways[t] } else { FREE }
}

/// The run that gains most where the first unit gives more and the second less, or `NO_RUN`. A run that has gained nothing so far is left
/// for one that begins later.
pub(crate) fn best_run(more: &[Leeway], less: &[Leeway], spares: &[i64]) -> Run {
    let mut best = NO_RUN;
    let mut run = NO_RUN;
    let mut is_open = false;
    for t in 0..more.len().min(less.len()) {
        let (up, down) = (more[t], less[t]);
        let may_begin = up.rise > 0 && down.fall > 0;
        if !can_swap(&up, &down, spares, t) || !(is_open || may_begin) {
            is_open = false;
            continue;
        }
        let gain = down.down_rate.saturating_sub(up.up_rate);
        if may_begin && !(is_open && run.gain > 0) {
            run = Run { first: t, ..NO_RUN };
        }
        is_open = true;
        run.last = t;
        run.gain = run.gain.saturating_add(gain);
        if run.gain > best.gain && may_end(more, less, t) {
            best = run;
        }
    }
    best
}

// Whether the first unit can give more in a period and the second less, and the reserve of the next one lets them.
fn can_swap(up: &Leeway, down: &Leeway, spares: &[i64], t: usize) -> bool {
    up.up > 0
        && down.down > 0
        && (down.idle > 0 || up.lent > 0 || spare_at(spares, t.saturating_add(1)) > 0)
}

// Whether the ramps to the next period let a run end.
fn may_end(more: &[Leeway], less: &[Leeway], t: usize) -> bool {
    let next = t.saturating_add(1);
    leeway_at(more, next).fall > 0 && leeway_at(less, next).rise > 0
}

// The spare of a period, which counts as at least 0; past the last one no reserve is wanted, and the spare is without end.
fn spare_at(spares: &[i64], t: usize) -> i64 {
    if t < spares.len() {
        spares[t].max(0)
    } else {
        i64::MAX
    }
}

/// How many watts can be swapped over a run at the rates of its gain, within the ramps at its ends and the spares.
pub(crate) fn watts_of(more: &[Leeway], less: &[Leeway], spares: &[i64], run: &Run) -> i64 {
    let first = leeway_at(more, run.first)
        .rise
        .min(leeway_at(less, run.first).fall);
    let next = run.last.saturating_add(1);
    let last = leeway_at(more, next).fall.min(leeway_at(less, next).rise);
    let mut watts = first.min(last);
    for t in run.first..next {
        let (up, down) = (leeway_at(more, t), leeway_at(less, t));
        let beyond = down
            .idle
            .saturating_add(spare_at(spares, t.saturating_add(1)))
            .saturating_add(up.lent);
        watts = watts.min(up.up).min(down.down).min(up.lent.max(beyond));
    }
    watts
}

/// Takes from the spares behind each period of a run what the second unit's head loses there by so many watts, and adds what the first one's
/// wins.
pub(crate) fn take_spares(
    more: &[Leeway],
    less: &[Leeway],
    run: &Run,
    watts: i64,
    spares: &mut [i64],
) {
    for t in run.first..run.last.saturating_add(1) {
        let next = t.saturating_add(1);
        if next < spares.len() {
            let lost = watts.saturating_sub(leeway_at(less, t).idle).max(0);
            let won = watts.min(leeway_at(more, t).lent);
            spares[next] = spares[next].saturating_sub(lost).saturating_add(won);
        }
    }
}

/// Raises the centres of unit g's windows by so many watts over a run.
pub(crate) fn shift_row(rows: &mut [Vec<Window>], g: usize, run: &Run, watts: i64) {
    if g < rows.len() {
        let row = rows[g].as_mut_slice();
        for t in run.first..run.last.saturating_add(1).min(row.len()) {
            row[t].power = row[t].power.saturating_add(watts);
        }
    }
}
