//! What a node stores, and what an evaluation makes of it.

ghost use Rattle.std.specs.Prelude.{◌≡◌, ◌<◌, pos, ◌<ℤ◌, int_lt, if◌then◌else◌};
ghost use Rattle.branch_tree.specs.Prelude.{node_count};
ghost use Rattle.search_machine.specs.Machine.{stored_at, unbounded};
ghost use Rattle.search_machine.specs.Moves.{bound_of, kept_after};

use branch_tree::{Leaf, Outcome, Spot, Tree};
use uc_model::floor_div;

/// A table, by its number, and the bound that it gives, in micro-dollars: by V or, with `exact`, by the exact value.
#[derive(Clone, Copy)]
pub struct Stored {
    pub table: u32,
    pub value: i128,
    pub exact: bool,
}

// A table of which no bound is told.
fn unbounded(table: u32) -> Stored
    ensures { result ≡ unbounded table }
{
    Stored {
        table,
        value: 0,
        exact: false,
    }
}

/// What the node of this number stores.
pub fn stored_at(tree: &Tree, node: u32) -> Stored
    requires { node < node_count tree.now.nodes }
    ensures { result ≡ stored_at tree.now node }
{
    match tree.node(node) {
        Spot::Leaf(
            Leaf::Live {
                table,
                value,
                exact,
            }
            | Leaf::Bound {
                table,
                value,
                exact,
            },
        ) => Stored {
            table,
            value,
            exact,
        },
        Spot::Leaf(Leaf::Ray { table } | Leaf::ExactRay { table }) => unbounded(table),
        Spot::Leaf(Leaf::Empty { .. } | Leaf::ExactEmpty { .. }) | Spot::Inner { .. } => unbounded(
            0,
        ),
    }
}

// The table of this number, with the bound that its value, of this kind, is at a scale above 0.
fn offered(table: u32, value: i128, scale: i64, exact: bool) -> Stored
    requires { pos 0 <ℤ scale }
    ensures { result ≡ record { table = table; value = bound_of value scale; exact = exact } }
{
    Stored {
        table,
        value: floor_div(value, i128::from(scale)),
        exact,
    }
}

// The one of the greater bound; where both are equal, the old one.
fn greater(old: &Stored, new: &Stored) -> Stored
    ensures { result ≡ (if int_lt old.now.value new.now.value then new.now else old.now) }
{
    if old.value < new.value { *new } else { *old }
}

/// What the move Again leaves at a node that stored `old`, after an evaluation, of a value of this kind, at the table of this number and
/// scale.
pub fn kept_after(old: &Stored, table: u32, scale: &i64, exact: bool, outcome: &Outcome) -> Stored
    ensures { result ≡ kept_after old.now table scale.now exact outcome.now }
{
    match outcome {
        Outcome::Value(value) if *scale > 0 => greater(old, &offered(table, *value, *scale, exact)),
        _ => *old,
    }
}
