//! The law of running sums.

ghost use Rattle.interval_graph.specs.RunningSums.{SumsAgree};

/// What running sums say of an interval is the plain sum of its terms.
pub fn sums_agree()
    ensures { SumsAgree }
{}
