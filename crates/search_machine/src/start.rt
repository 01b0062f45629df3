//! What a tree of a search starts with.

ghost use Rattle.std.specs.Prelude.{◌≡◌, ◌≤◌, IfOk};
ghost use Rattle.branch_tree.specs.Prelude.{EndAt};
ghost use Rattle.search_machine.specs.declared.limits.TheConstants.{MAX_BUDGET};
ghost use Rattle.search_machine.specs.Machine.{room_for};

use branch_tree::{Leaf, Tree};
use std::alloc::Global;
use uc_model::NoMemory;

/// A tree over `units` thermal units and `periods` periods whose root is this leaf, with room for what a budget may add. The only error is
/// `NoMemory`.
pub fn root(
    alloc: Global,
    units: u32,
    periods: u32,
    budget: u32,
    leaf: &Leaf,
) -> Result<Tree, NoMemory>
    requires { budget ≤ MAX_BUDGET }
    ensures { IfOk result (λ tree. tree ≡ record { units = units; periods = periods; room = room_for budget; nodes = EndAt 0 leaf.now }) }
{
    let mut tree = Tree::with_room(alloc, units, periods, 2 * budget + 1)?;
    tree.close(0, *leaf);
    Ok(tree)
}
