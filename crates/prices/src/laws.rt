//! A law of the tables that a search steps to, with nothing to run.

ghost use Rattle.prices.specs.Steps.{StepsDiffer};

/// The tables that `step` gives for different numbers of earlier ones differ.
pub fn steps_differ()
    ensures { StepsDiffer }
{}
