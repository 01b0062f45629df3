//! Which spots are open leaves, and which outcomes a move may end a claim with.

ghost use Rattle.std.specs.Prelude.{◌≡◌, ◌↔◌, IsTrue, pos};
ghost use Rattle.search_machine.specs.Machine.{IsLive};
ghost use Rattle.search_machine.specs.Moves.{IsValue, IsPositive, IsEmpty};

use branch_tree::{Leaf, Outcome, Spot};
use dual_model::Table;

/// Whether an open leaf stands there.
pub fn is_live(spot: &Spot) -> bool
    ensures { IsTrue result ↔ IsLive spot.now }
{
    matches!(spot, Spot::Leaf(Leaf::Live { .. }))
}

/// Whether the outcome is a value.
pub fn is_value(outcome: &Outcome) -> bool
    ensures { IsTrue result ↔ IsValue outcome.now }
{
    matches!(outcome, Outcome::Value(_))
}

/// Whether the outcome is that a unit has no pattern.
pub fn is_empty(outcome: &Outcome) -> bool
    ensures { IsTrue result ↔ IsEmpty outcome.now }
{
    matches!(outcome, Outcome::Empty(_))
}

// Whether the outcome is a value above 0.
fn is_positive(outcome: &Outcome) -> bool
    ensures { IsTrue result ↔ IsPositive outcome.now }
{
    match outcome {
        Outcome::Value(value) => *value > 0,
        Outcome::Empty(_) => false,
    }
}

/// Whether the table is a ray that excludes its node.
pub fn is_excluding(table: &Table, outcome: &Outcome) -> bool
    ensures { IsTrue result ↔ ((table.now.k ≡ pos 0) × IsPositive outcome.now) }
{
    table.k() == 0 && is_positive(outcome)
}
