//! Which cells a node decides.

ghost use Rattle.std.specs.Prelude.{◌≡◌, MatchOption};
ghost use Rattle.uc_model.specs.Prelude.{IsLawfulInstance};
ghost use Rattle.dual_model.specs.Prelude.{is_decided};
ghost use Rattle.decided_nodes.specs.Decided.{DecidesBelow, DecidesEach, IsFreeBelow, IsFreeCell};

use dual_model::Node;
use uc_model::Instance;

/// The first cell of the instance that the node leaves undecided, its thermal unit and its period, each from 0; none exactly where it decides
/// each.
pub fn free_cell(instance: &Instance, node: &Node) -> Option<(u32, u32)>
    requires { IsLawfulInstance instance.now }
    ensures { MatchOption result (DecidesEach instance.now node.now) (IsFreeCell instance.now node.now) }
{
    for g in 0..instance.thermal.as_slice().len() as u32 {
        if let Some(t) = free_period(node, g, instance.periods) {
            return Some((g, t));
        }
    }
    None
}

// The first period, of so many, in which the node leaves the unit undecided.
fn free_period(node: &Node, g: u32, periods: u32) -> Option<u32>
    ensures { MatchOption result (DecidesBelow node.now g periods) (IsFreeBelow node.now g periods) }
{
    for t in 0..periods {
        if !decides(node, g, t) {
            return Some(t);
        }
    }
    None
}

/// Whether the node decides the cell of the unit and the period, each from 0.
pub fn decides(node: &Node, g: u32, t: u32) -> bool
    ensures { result ≡ is_decided node.now g t }
{
    node.fixings
        .as_slice()
        .iter()
        .any(|fixing| fixing.g == g && fixing.t == t)
}
