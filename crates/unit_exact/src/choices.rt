//! The least ways from a switch on, and costs with those of choices behind them.

ghost use Rattle.std.specs.Prelude.{◌≡◌, ◌+◌, ◌^◌, ◌<◌, ◌≤◌, ℤ, unsigned_abs, IfSome, Option, Some};
ghost use Rattle.dual_model.specs.Prelude.{total_of};
ghost use Rattle.unit_exact.specs.inside.Choices.{choice_cost, IsReached};
ghost use Rattle.unit_exact.specs.inside.Problems.{MAX_WAY};

use dual_model::choices::Choice;

/// The least ways that begin with a switch in a period, without the cost of that switch; `None` is what may not be.
#[derive(Clone, Copy)]
pub(crate) struct Switches {
    /// From a start in the period on: where the unit stops next.
    pub(crate) start: Option<Choice>,
    /// From a stop in the period on: where it starts next.
    pub(crate) stop: Option<Choice>,
}

/// Nothing is known yet.
pub(crate) const UNKNOWN: Switches = Switches {
    start: None,
    stop: None,
};

/// A cost with that of the choice behind it; none where there is no choice.
pub(crate) fn with_choice(cost: i128, next: &Option<Choice>) -> Option<i128>
    requires { IfSome next.now (λ choice. unsigned_abs cost + unsigned_abs choice.cost < 2 ^ 127) }
    ensures { result ≡ total_of (Some cost) (choice_cost next.now) }
{
    match next {
        None => None,
        Some(next) => Some(cost + next.cost),
    }
}

/// Below what a cost has to be to be better, with that of the choice behind it, than the best that is known.
pub(crate) fn limit_before(best: &Option<Choice>, next: &Option<Choice>) -> Option<i128>
    requires best { IfSome best.now (λ choice. unsigned_abs choice.cost ≤ MAX_WAY) }
    requires next { IfSome next.now (λ choice. unsigned_abs choice.cost ≤ MAX_WAY) }
    ensures { (cost : Option ℤ) → IsReached result cost → IsReached (choice_cost best.now) (total_of cost (choice_cost next.now)) }
{
    match (best, next) {
        (Some(best), Some(next)) => Some(best.cost - next.cost),
        _ => None,
    }
}
