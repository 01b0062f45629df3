//! Why a schedule's denominator is the least one, as a law: the contract of a function that does nothing.

ghost use Rattle.dispatch_schedule.specs.ShownSchedules.{LeastDenominators};

/// The powers of a cheapest basis are whole over just the multiples of its schedule's denominator.
pub fn denominators_are_least()
    ensures { LeastDenominators }
{}
