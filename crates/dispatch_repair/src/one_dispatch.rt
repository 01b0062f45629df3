//! The law that a commitment is dispatched in one way or stuck in one period, with nothing to run.

ghost use Rattle.dispatch_repair.specs.OneDispatch.{CommitmentsEnd, DispatchesAreSame, NeverBoth, StuckPeriodsAreSame};

/// A commitment of a lawful instance has one dispatch at most: two that it had would have the same cells and outputs, and lack the same. It is never both
/// dispatched and stuck, and stuck in one period at most. One whose units keep their own rules is dispatched or stuck.
pub fn commitments_have_one_dispatch()
    ensures same { DispatchesAreSame }
    ensures never_both { NeverBoth }
    ensures one_period { StuckPeriodsAreSame }
    ensures ends { CommitmentsEnd }
{}
