//! Where a state of a unit ends on the least way, and the better of two such choices.

ghost use Rattle.std.specs.Prelude.{◌≡◌};
ghost use Rattle.dual_model.specs.Bellman.{lesser_of};
ghost use Rattle.dual_model.specs.Choices.{choice_cost, ends_at, next_after, IsOneOf};

/// The least of some ways: what it costs, and the period (from 0) in which the unit is switched next on it, where it is.
#[derive(Clone, Copy)]
pub struct Choice {
    pub cost: i128,
    pub at: Option<usize>,
}

/// The better of a choice and of a switch in period `at`, or of none, at a cost that may not be there: of equal ones the first.
pub fn better(best: Option<Choice>, cost: Option<i128>, at: Option<usize>) -> Option<Choice>
    ensures cost { choice_cost result ≡ lesser_of (choice_cost best) cost }
    ensures choice { IsOneOf best cost at result }
{
    match (best, cost) {
        (best, None) => best,
        (None, Some(cost)) => Some(Choice { cost, at }),
        (Some(best), Some(cost)) => Some(if cost < best.cost {
            Choice { cost, at }
        } else {
            best
        }),
    }
}

/// What the choice costs, where there is one.
pub fn cost_of(choice: &Option<Choice>) -> Option<i128>
    ensures { result ≡ choice_cost choice.now }
{
    match choice {
        None => None,
        Some(choice) => Some(choice.cost),
    }
}

/// The period in which the unit is switched next, or `end` where it is not.
pub(crate) fn ends_at(choice: &Choice, end: usize) -> usize
    ensures { result ≡ ends_at choice.now end }
{
    choice.at.unwrap_or(end)
}

/// The same, or `end` where there is no choice.
pub(crate) fn switch_or_end(choice: &Option<Choice>, end: usize) -> usize
    ensures { result ≡ next_after choice.now end }
{
    match choice {
        None => end,
        Some(choice) => ends_at(choice, end),
    }
}
