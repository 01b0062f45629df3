//! Patterns and what is decided of them.

use uc_model::Pattern;
use uc_model::limits::MAX_PERIODS;

/// What is decided of a unit: in the periods that are `known`, whether it is on.
#[derive(Clone, Copy)]
pub struct Decided {
    pub known: Pattern,
    pub on: Pattern,
}

impl Decided {
    /// Nothing is decided.
    pub fn nothing() -> Decided {
        Decided {
            known: Pattern::all_off(),
            on: Pattern::all_off(),
        }
    }

    /// All is decided, as in this pattern.
    pub fn whole(pattern: Pattern) -> Decided {
        let mut known = Pattern::all_off();
        for t in 0..MAX_PERIODS {
            known.switch_on(t);
        }
        Decided { known, on: pattern }
    }

    /// The same with one period decided more: to be on, or to be off.
    pub fn with_turn(&self, t: u32, on: bool) -> Decided {
        let mut decided = *self;
        if t < MAX_PERIODS {
            decided.known.switch_on(t);
            if on {
                decided.on.switch_on(t);
            }
        }
        decided
    }
}

/// Whether a pattern is on in a period, from 0.
pub fn is_on(pattern: &Pattern, t: u32) -> bool {
    t < MAX_PERIODS && pattern.is_on(t)
}
