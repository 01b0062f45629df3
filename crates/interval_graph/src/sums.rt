//! Running sums of the terms at the full cap.

ghost use Rattle.std.specs.Prelude.{◌≡◌, ◌<◌, ◌≤◌, Some, false, length, unsigned_abs};
ghost use Rattle.interval_graph.specs.Intervals.{term_in, AreTermRows, MAX_TERM};
ghost use Rattle.interval_graph.specs.RunningSums.{AreRunningSums};

/// Writes for each period the sum of the terms at the full cap before it.
pub(crate) fn add_up(sums: &mut [i128], rows: &[[Option<i128>; 4]])
    requires room { length sums.old ≡ length rows.now }
    requires rows { AreTermRows rows.now }
    ensures { AreRunningSums rows.now sums.new }
{
    // Invariant, before period t: the sums of the periods before it are written, total = the sum before it, and
    // |total| <= t * MAX_TERM.
    let mut total = 0;
    for t in 0..rows.len() {
        sums[t] = total;
        total += full_of(rows, t);
    }
}

/// The term at the full cap in period `t`, from 0.
pub(crate) fn full_of(rows: &[[Option<i128>; 4]], t: usize) -> i128
    requires rows { AreTermRows rows.now }
    requires period { t < length rows.now }
    ensures value { Some result ≡ term_in rows.now t false false }
    ensures size { unsigned_abs result ≤ MAX_TERM }
{
    match rows[t][0] {
        Some(term) => term,
        None => unreachable!(),
    }
}
