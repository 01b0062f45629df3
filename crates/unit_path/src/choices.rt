//! Choices with costs before them, and the better of two.

ghost use Rattle.std.specs.Prelude.{◌≡◌, ◌≤◌, ◌⊎◌, Some, unsigned_abs};
ghost use Rattle.dual_model.specs.Prelude.{IsWithin, MAX_COST_TO_GO, lesser_of, total_of};
ghost use Rattle.unit_path.specs.inside.Choices.{choice_cost, longer_of};

use dual_model::choices::{Choice, better};

/// A cost with another one, which may not be there.
pub(crate) fn joined(cost: i128, more: Option<i128>) -> Option<i128>
    requires cost { unsigned_abs cost ≤ MAX_COST_TO_GO }
    requires more { IsWithin MAX_COST_TO_GO more }
    ensures { result ≡ total_of (Some cost) more }
{
    match more {
        None => None,
        Some(more) => Some(cost + more),
    }
}

/// The better of two choices: of equal ones the first.
pub(crate) fn better_of(first: Option<Choice>, second: Option<Choice>) -> Option<Choice>
    ensures cost { choice_cost result ≡ lesser_of (choice_cost first) (choice_cost second) }
    ensures choice { (result ≡ first) ⊎ (result ≡ second) }
{
    match second {
        None => first,
        Some(choice) => better(first, Some(choice.cost), choice.at),
    }
}

/// A choice whose way has a cost before it.
pub(crate) fn longer_by(cost: i128, choice: Option<Choice>) -> Option<Choice>
    requires cost { unsigned_abs cost ≤ MAX_COST_TO_GO }
    requires choice { IsWithin MAX_COST_TO_GO (choice_cost choice) }
    ensures { result ≡ longer_of cost choice }
{
    match choice {
        None => None,
        Some(choice) => Some(Choice {
            cost: cost + choice.cost,
            at: choice.at,
        }),
    }
}
