//! Who holds a node, by which claim, and which nodes are open.

ghost use Rattle.std.specs.Prelude.{◌≡◌, ◌<◌, ◌≤◌, ◌-◌, ◌↔◌, None, IsTrue, IsSomeAnd, slice_set, vec_len};
ghost use Rattle.branch_tree.specs.Prelude.{node_count, IsOpenAt};
ghost use Rattle.search_machine.specs.Prelude.{holder_in, IsHeldIn};

use branch_tree::Tree;
use search_machine::holder::Holder;
use search_machine::legal::is_live;

/// Who holds which node by the claim of this unit, which counts from 1.
pub(crate) fn holder_of(claims: &[Option<Holder>], unit: u32) -> Option<Holder>
    ensures { result ≡ holder_in claims.now unit }
{
    if unit == 0 {
        return None;
    }
    match claims.get(unit as usize - 1) {
        Some(holder) => *holder,
        None => None,
    }
}

// Whether the node is held by this claim.
fn is_of(claim: &Option<Holder>, node: u32) -> bool
    ensures { IsTrue result ↔ IsSomeAnd claim.now (λ holder. holder.node ≡ node) }
{
    match claim {
        Some(holder) => holder.node == node,
        None => false,
    }
}

/// Whether the node is held.
pub(crate) fn is_held(claims: &[Option<Holder>], node: u32) -> bool
    ensures { IsTrue result ↔ IsHeldIn claims.now node }
{
    for claim in claims {
        if is_of(claim, node) {
            return true;
        }
    }
    false
}

/// Whether an open leaf has this number, among so many nodes, and isn't held.
pub(crate) fn is_open(tree: &Tree, count: u32, claims: &[Option<Holder>], node: u32) -> bool
    requires { count ≡ node_count tree.now.nodes }
    ensures { IsTrue result ↔ (IsOpenAt tree.now.nodes node × (¬ IsHeldIn claims.now node)) }
{
    tree.keeps_cover();
    if node >= count {
        return false;
    }
    is_live(&tree.node(node)) && !is_held(claims, node)
}

/// Ends the claim of this unit, which counts from 1.
pub(crate) fn end_claim(claims: &mut Vec<Option<Holder>>, unit: u32)
    requires some { 0 < unit }
    requires within { unit ≤ vec_len claims.old }
    ensures { claims.new.items ≡ slice_set claims.old.items (unit - 1) None }
{
    claims[unit as usize - 1] = None;
}
