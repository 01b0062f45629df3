//! The exact dispatch of the commitment that a node decides.

ghost use Rattle.std.specs.Prelude.{◌≡◌, IfOk, IfErr, MatchOption};
ghost use Rattle.std.specs.Option.{option_map};
ghost use Rattle.uc_model.specs.Prelude.{IsLawfulInstance};
ghost use Rattle.dual_model.specs.Prelude.{IsNodeOf};
ghost use Rattle.dual_model.specs.declared.node.Node.{Node};
ghost use Rattle.dual_value.specs.NodeAnswer.{IsFaultOf};
ghost use Rattle.dispatch_rules.specs.Prelude.{AreAllowed};
ghost use Rattle.decided_nodes.specs.Decided.{ArePatternsAt, IsDecided, IsUndispatched, IsWideAt};

use crate::cells::free_cell;
use dual_model::{Node, Table, Valued};
use dual_value::{ValueFault, value};
use found_schedule::accepted;
use opening_tables::zero;
use pivot_dispatch::{DispatchAnswer, best};
use std::alloc::Global;
use uc_model::{Instance, List, NoMemory, Pattern, Printed};
use unit_path::Scratch;

/// What the exact dispatch gives at a node at which each cell is decided: the table to evaluate it at, and the cheapest schedule with its cost,
/// in micro-dollars, where there is one.
#[derive(Drop)]
pub struct Decided {
    pub table: Table,
    pub schedule: Option<(Printed, i64)>,
}

/// The exact dispatch of the commitment that the node decides; none where a cell is undecided, a unit has no allowed pattern there, or the run of
/// pivots meets a limit. The only error is `NoMemory`.
pub fn exact_dispatch(
    alloc: Global,
    instance: &Instance,
    node: &Node,
) -> Result<Option<Decided>, NoMemory>
    requires lawful { IsLawfulInstance instance.now }
    requires node { IsNodeOf instance.now node.now }
    ensures { IfOk result (λ found. MatchOption found (IsUndispatched instance.now node.now) (IsDecided instance.now node.now)) }
{
    if free_cell(instance, node).is_some() {
        return Ok(None);
    }
    match patterns(alloc, instance, node) {
        Ok(patterns) => dispatched(alloc, instance, patterns.as_slice()),
        Err(ValueFault::Empty(_)) => Ok(None),
        Err(ValueFault::NoMemory) => Err(NoMemory),
    }
}

// The pattern of each unit at the node.
fn patterns(alloc: Global, instance: &Instance, node: &Node) -> Result<List<Pattern>, ValueFault>
    requires lawful { IsLawfulInstance instance.now }
    requires node { IsNodeOf instance.now node.now }
    ensures patterns { IfOk result (ArePatternsAt instance.now node.now) }
    ensures fault { IfErr result (IsFaultOf instance.now node.now) }
{
    let table = zero(alloc, instance)?;
    let mut scratch = Scratch::new(alloc, instance.periods as usize)?;
    let Valued { patterns, .. } = value(alloc, &mut scratch, instance, node, &table)?;
    Ok(patterns)
}

// The exact dispatch of these patterns; none where its run meets a limit.
fn dispatched(
    alloc: Global,
    instance: &Instance,
    patterns: &[Pattern],
) -> Result<Option<Decided>, NoMemory>
    requires lawful { IsLawfulInstance instance.now }
    requires allowed { AreAllowed instance.now patterns.now }
    ensures { (node : Node) → ArePatternsAt instance.now node patterns.now
        → IfOk result (λ found. MatchOption found (IsWideAt instance.now node) (IsDecided instance.now node)) }
{
    match best(alloc, instance, patterns)? {
        DispatchAnswer::Best { schedule, table } => {
            let cost = accepted(instance, &schedule);
            Ok(Some(Decided {
                table,
                schedule: priced(schedule, cost),
            }))
        }
        DispatchAnswer::Ray(table) => Ok(Some(Decided {
            table,
            schedule: None,
        })),
        DispatchAnswer::Wide { .. } => Ok(None),
    }
}

// The schedule with its cost, where it has one.
fn priced(schedule: Printed, cost: Option<i64>) -> Option<(Printed, i64)>
    ensures { result ≡ option_map (λ cost. (schedule, cost)) cost }
{
    match cost {
        Some(cost) => Some((schedule, cost)),
        None => None,
    }
}
