//! The pattern of the way that choices lead, read period by period.

ghost use Rattle.std.specs.Prelude.{◌≡◌, ◌≢◌, ℕ, suc, ◌<◌, Bool, true, false, if◌then◌else◌};
ghost use Rattle.uc_model.specs.Prelude.{commitment_of};
ghost use Rattle.dual_model.specs.declared.choices.Choice.{Choice as AChoice};
ghost use Rattle.dual_model.specs.Choices.{next_after};
ghost use Rattle.dual_model.specs.Traces.{Choices, IsTraced};

use crate::choices::{Choice, ends_at, switch_or_end};
use uc_model::Pattern;
use uc_model::limits::MAX_PERIODS;

/// A way so far: its pattern, whether the unit is on, and before which period that ends, where `end` is the number of periods.
#[derive(Clone, Copy)]
pub struct Trace {
    pub pattern: Pattern,
    pub on: bool,
    pub until: usize,
    pub end: usize,
}

impl Trace {
    /// The way before the first period, of a unit that is on or off there, by its first choice.
    pub fn begin(on: bool, first: &Choice, end: usize) -> Trace
        ensures end { result.end ≡ end }
        ensures traced { (choices : Choices) → IsTraced choices on first.now 0 result }
    {
        Trace {
            pattern: Pattern::all_off(),
            on,
            until: ends_at(first, end),
            end,
        }
    }

    /// The way with period `t` too, by the choices behind a start and behind a stop in it.
    pub fn follow(self, t: usize, start: &Option<Choice>, stop: &Option<Choice>) -> Trace
        requires period { t < MAX_PERIODS }
        ensures end { result.end ≡ self.end }
        ensures traced { (choices : Choices) (on : Bool) (first : AChoice) → choices t true ≡ start.now → choices t false ≡ stop.now
            → IsTraced choices on first t self → IsTraced choices on first (suc t) result }
    {
        if t != self.until {
            return Trace {
                pattern: with_period(self.pattern, t, self.on),
                ..self
            };
        }
        let on = !self.on;
        Trace {
            pattern: with_period(self.pattern, t, on),
            on,
            until: next_switch(on, start, stop, self.end),
            end: self.end,
        }
    }
}

// Where a unit is switched next that is switched on, or off; where there is no way, at the end.
fn next_switch(on: bool, start: &Option<Choice>, stop: &Option<Choice>, end: usize) -> usize
    ensures { result ≡ next_after (if on then start.now else stop.now) end }
{
    switch_or_end(if on { start } else { stop }, end)
}

// The pattern with the unit on or off in a period in which it was off.
fn with_period(pattern: Pattern, t: usize, on: bool) -> Pattern
    requires period { t < MAX_PERIODS }
    ensures here { commitment_of pattern t ≡ false → commitment_of result t ≡ on }
    ensures others { (k : ℕ) → k ≢ t → commitment_of result k ≡ commitment_of pattern k }
{
    let mut pattern = pattern;
    if on {
        pattern.switch_on(t as u32);
    }
    pattern
}
