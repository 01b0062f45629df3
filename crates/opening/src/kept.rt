//! The value of the node that was evaluated last, from which a child of it has the parts of all units but one.

ghost use Rattle.std.specs.Prelude.{◌≡◌, ◌∷◌, ◌++◌, [], IfOk, IfSome};
ghost use Rattle.dual_value.specs.Inheritance.{IsParentOf};
ghost use Rattle.opening.specs.inside.Kept.{Instance, IsKeptOf};

use dual_model::{Fixing, Node, Table};
use dual_value::{Inherited, Valued};
use search_machine::tables::is_same_table;
use std::alloc::Global;
use uc_model::{List, NoMemory};

/// A node's value at a table.
#[derive(Drop)]
pub(crate) struct Kept {
    pub node: Node,
    pub table: Table,
    pub valued: Valued,
}

impl Kept {
    /// This value of the node at the table. The only error is `NoMemory`.
    pub(crate) fn new(
        alloc: Global,
        node: &Node,
        table: &Table,
        valued: Valued,
    ) -> Result<Kept, NoMemory>
        ensures node { IfOk result (λ kept. kept.node ≡ node.now) }
        ensures table { IfOk result (λ kept. kept.table ≡ table.now) }
        ensures valued { IfOk result (λ kept. kept.valued ≡ valued) }
    {
        Ok(Kept {
            node: Node {
                fixings: List::from_vec(Vec::from_slice(alloc, node.fixings.as_slice())?),
            },
            table: table.copy(alloc)?,
            valued,
        })
    }

    // What the node has from this one, where it is a child of it and the table is the same.
    fn inherited(&self, node: &Node, table: &Table) -> Option<Inherited<'_>>
        ensures table { IfSome result (λ inherited. inherited.table.now ≡ table.now) }
        ensures parent { (instance : Instance) → IsKeptOf instance self.now
            → IfSome result (λ inherited. IsParentOf instance node.now table.now inherited.g inherited.parent.now) }
    {
        let last = last_behind(node.fixings.as_slice(), self.node.fixings.as_slice())?;
        if !is_same_table(table, &self.table) {
            return None;
        }
        Some(Inherited {
            table: &self.table,
            parent: &self.valued,
            g: last.g,
        })
    }
}

/// What the node has from the one whose value is kept, where it is a child of it and the table is the same.
pub(crate) fn inherited<'a>(
    kept: &'a Option<Kept>,
    node: &Node,
    table: &Table,
) -> Option<Inherited<'a>>
    ensures table { IfSome result (λ inherited. inherited.table.now ≡ table.now) }
    ensures parent { (instance : Instance) → IfSome kept.now (IsKeptOf instance)
        → IfSome result (λ inherited. IsParentOf instance node.now table.now inherited.g inherited.parent.now) }
{
    match kept {
        Some(kept) => kept.inherited(node, table),
        None => None,
    }
}

// The last decision of a path that has one more than the other.
fn last_behind(path: &[Fixing], parent: &[Fixing]) -> Option<Fixing>
    ensures { IfSome result (λ last. path.now ≡ parent.now ++ last ∷ []) }
{
    if path.len() != parent.len() + 1 {
        return None;
    }
    for i in 0..parent.len() {
        if path[i] != parent[i] {
            return None;
        }
    }
    Some(path[parent.len()])
}
