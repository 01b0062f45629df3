//! The pattern of the least way, read from the table period by period.

ghost use Rattle.uc_model.specs.Prelude.{IsLawfulThermal};
ghost use Rattle.dual_model.specs.Prelude.{AreSizedTerms};
ghost use Rattle.unit_path.specs.inside.Choices.{IsFirst};
ghost use Rattle.unit_path.specs.inside.Hours.{IsTableFrom};
ghost use Rattle.unit_path.specs.inside.Ways.{IsWay};

use crate::hour::Hour;
use dual_model::Fix;
use dual_model::choices::Choice;
use dual_model::traces::Trace;
use uc_model::{Pattern, Terms, Thermal};

/// The pattern of the way on which the unit is switched first as `first` says, from its initial state on.
pub(crate) fn pattern_of(
    hours: &[Hour],
    terms: &Terms,
    unit: &Thermal,
    fix: &Fix,
    first: &Choice,
) -> Pattern
    requires lawful { IsLawfulThermal unit.now }
    requires sized { AreSizedTerms unit.now terms.now }
    requires table { IsTableFrom terms.now unit.now fix.now 0 hours.now }
    requires first { IsFirst terms.now unit.now fix.now first.now }
    ensures { IsWay terms.now unit.now fix.now first.now.cost result }
{
    // Invariant, before period t: the trace has the way that the table's choices lead until then.
    let end = hours.len() - 1;
    let mut trace = Trace::begin(unit.on0, first, end);
    for t in 0..end {
        trace = trace.follow(t, &hours[t].start, &hours[t].stop);
    }
    trace.pattern
}
