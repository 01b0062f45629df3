//! The rays of the opening: whether one of them shows that a node has no schedule.

ghost use Rattle.std.specs.Prelude.{◌≡◌, ◌↔◌, pos, IfOk, IfSome, IsTrue, MatchOption};
ghost use Rattle.uc_model.specs.Prelude.{IsLawfulInstance};
ghost use Rattle.dual_model.specs.Prelude.{IsNodeOf, IsLawfulTable};
ghost use Rattle.schedule_check.specs.Accepted.{IsAcceptedIfFound};
ghost use Rattle.opening.specs.Outcomes.{IsPositive};
ghost use Rattle.opening.specs.Rays.{HasNoRay, IsFirstRay};

use crate::evaluator::Evaluator;
use branch_tree::Outcome;
use dual_model::{Node, Table};
use opening_tables::opening_ray;
use std::alloc::Global;
use uc_model::{NoMemory, Printed};

/// The first ray of the opening that leaves no schedule, by V or, where `exact`, by VE. Where there is a schedule, there is none. The only
/// error is `NoMemory`.
pub fn excluding_ray(
    alloc: Global,
    evaluator: &mut Evaluator,
    best: &Option<(Printed, i64)>,
    exact: bool,
) -> Result<Option<u32>, NoMemory>
    requires lawful { IsLawfulInstance evaluator.old }
    requires accepted { IsAcceptedIfFound evaluator.old best.now }
    ensures kept { evaluator.new ≡ evaluator.old }
    ensures ray { IfOk result (λ ray. MatchOption ray (HasNoRay exact evaluator.old) (IsFirstRay exact evaluator.old)) }
{
    match best {
        Some(_) => Ok(None),
        None => first_ray(alloc, evaluator, exact),
    }
}

// The first ray of positive value.
fn first_ray(alloc: Global, evaluator: &mut Evaluator, exact: bool) -> Result<Option<u32>, NoMemory>
    ensures kept { evaluator.new ≡ evaluator.old }
    ensures ray { IfOk result (λ ray. MatchOption ray (HasNoRay exact evaluator.old) (IsFirstRay exact evaluator.old)) }
{
    let instance = evaluator.instance();
    // Invariant: no ray before ray n has a positive value.
    for n in 0..4 * instance.periods + 4 {
        let table = opening_ray(alloc, instance, n)?;
        let outcome = evaluator.outcome(alloc, &Node::root(alloc), &table, exact)?;
        if is_positive(&outcome) {
            return Ok(Some(n));
        }
    }
    Ok(None)
}

/// The first ray of the opening of positive value at a node, by V or, where `exact`, by VE. The only error is `NoMemory`.
pub fn node_ray(
    alloc: Global,
    evaluator: &mut Evaluator,
    node: &Node,
    exact: bool,
) -> Result<Option<Table>, NoMemory>
    requires { IsNodeOf evaluator.old node.now }
    ensures kept { evaluator.new ≡ evaluator.old }
    ensures lawful { IfOk result (λ ray. IfSome ray (IsLawfulTable evaluator.old)) }
    ensures scale { IfOk result (λ ray. IfSome ray (λ table. table.k ≡ pos 0)) }
{
    let instance = evaluator.instance();
    for n in 0..4 * instance.periods + 4 {
        let table = opening_ray(alloc, instance, n)?;
        if is_positive(&evaluator.outcome(alloc, node, &table, exact)?) {
            return Ok(Some(table));
        }
    }
    Ok(None)
}

/// Whether it is a value above 0, which leaves no schedule where the table is a ray.
pub fn is_positive(outcome: &Outcome) -> bool
    ensures { IsTrue result ↔ IsPositive outcome.now }
{
    match outcome {
        Outcome::Value(value) => *value > 0,
        Outcome::Empty(_) => false,
    }
}
