//! How the best commitment so far was dispatched, and whether a trial of another one is better.

ghost use Rattle.std.specs.Prelude.{◌≡◌, IsTrue};
ghost use Rattle.decommitment.specs.inside.Turns.{IsLater, IsReplaced, IsStuckStand, beats};

use uc_model::{Pattern, Stuck};

/// How the commitment that is kept was dispatched: its cost in micro-dollars, or the period, from 0, where it is stuck, as the most-on
/// commitment also was.
#[derive(Drop)]
pub(crate) enum Stand {
    Dispatched(i128),
    Stuck { period: usize, most_on: Stuck },
}

/// How the dispatch of a commitment ended: with a schedule of this cost in micro-dollars, or stuck in this period, from 0.
#[derive(Clone, Copy)]
pub(crate) enum Trial {
    Dispatched(i128),
    Stuck(usize),
}

/// The trial of unit g, from 0, which had the pattern that stood.
#[derive(Clone, Copy)]
pub(crate) struct Turn {
    pub g: usize,
    pub stood: Pattern,
    pub trial: Trial,
}

/// Whether a dispatch is better: not stuck is better than stuck; of two that aren't the cheaper is better, and of two that are the
/// one that is stuck later.
pub(crate) fn is_better(trial: &Trial, stand: &Stand) -> bool
    ensures { result ≡ beats trial.now stand.now }
{
    match (trial, stand) {
        (Trial::Dispatched(cost), Stand::Dispatched(stood)) => cost < stood,
        (Trial::Dispatched(_), Stand::Stuck { .. }) => true,
        (Trial::Stuck(_), Stand::Dispatched(_)) => false,
        (Trial::Stuck(later), Stand::Stuck { period, .. }) => period < later,
    }
}

/// Puts the better dispatch in place of the former.
pub(crate) fn replace(stand: &mut Stand, trial: Trial)
    requires better { IsTrue (beats trial stand.old) }
    ensures { IsReplaced trial stand.old stand.new }
{
    match trial {
        Trial::Dispatched(cost) => *stand = Stand::Dispatched(cost),
        Trial::Stuck(later) => stuck_later(stand, later),
    }
}

// Stuck in a later period.
fn stuck_later(stand: &mut Stand, later: usize)
    requires stuck { IsStuckStand stand.old }
    ensures { IsLater later stand.old stand.new }
{
    match stand {
        Stand::Stuck { period, .. } => *period = later,
        Stand::Dispatched(_) => unreachable!(),
    }
}
