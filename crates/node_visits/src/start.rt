//! What the claims of the root begin with.

ghost use Rattle.std.specs.Prelude.{IfOk};
ghost use Rattle.uc_model.specs.Prelude.{IsLawfulInstance};
ghost use Rattle.node_visits.specs.Trials.{IsAscentFor};

use dual_model::{Node, Table};
use opening::Priced;
use prices::{Ascent, CutPool, TriedNode, Values, next_ascent, zero};
use std::alloc::Global;
use uc_model::{NoMemory, Printed};

/// The opening's table with its value, the best schedule so far with its cost in micro-dollars, and the ascent to the table of the first
/// claim, where it was made already.
#[derive(Drop)]
pub struct SearchStart {
    pub opening: Priced,
    pub best: Option<(Printed, i64)>,
    pub next: Option<Ascent>,
}

/// The ascent of the first claim, from the prices in order of merit, which come out better than the opening's. The only error is
/// `NoMemory`.
pub fn first_ascent(alloc: Global, values: Values, pool: &mut CutPool) -> Result<Ascent, NoMemory>
    requires { IsLawfulInstance values.instance.now }
    ensures { IfOk result (IsAscentFor values.entry.instance.now 1) }
{
    let none = zero(alloc, values.instance)?;
    root_ascent(alloc, values, pool, &none)
}

/// An ascent of the first claim from a table. The only error is `NoMemory`.
pub(crate) fn root_ascent(
    alloc: Global,
    values: Values,
    pool: &mut CutPool,
    table: &Table,
) -> Result<Ascent, NoMemory>
    requires { IsLawfulInstance values.instance.now }
    ensures { IfOk result (IsAscentFor values.entry.instance.now 1) }
{
    let root = Node::root(alloc);
    let target = TriedNode {
        node: &root,
        had: 1,
        enough: i128::MAX,
    };
    next_ascent(alloc, values, pool, table, target)
}
