//! The table that the root has before any claim.

ghost use Rattle.std.specs.Prelude.{◌≡◌, int_lt, if◌then◌else◌, IfOk};
ghost use Rattle.uc_model.specs.Prelude.{HasShapeOf, printed_denominator, printed_schedule, Obeys};
ghost use Rattle.dual_model.specs.Prelude.{HasEachPattern, ZERO_SCALE, zero_table, IsLawfulTable};
ghost use Rattle.opening.specs.RootTables.{IsGreaterTable, IsPricedOf};

use crate::evaluator::Evaluator;
use dual_model::Table;
use opening_tables::zero;
use std::alloc::Global;
use uc_model::{NoMemory, Printed};

/// A table with the root's value there.
#[derive(Drop)]
pub struct Priced {
    pub table: Table,
    pub value: i128,
}

// The table with its value.
fn with_value(alloc: Global, evaluator: &mut Evaluator, table: Table) -> Result<Priced, NoMemory>
    requires patterns { HasEachPattern evaluator.old }
    requires table { IsLawfulTable evaluator.old table }
    requires scale { table.k ≡ ZERO_SCALE }
    ensures kept { evaluator.new ≡ evaluator.old }
    ensures table { IfOk result (λ priced. priced.table ≡ table) }
    ensures priced { IfOk result (IsPricedOf evaluator.old) }
{
    let value = evaluator.root_value(alloc, &table)?;
    Ok(Priced { table, value })
}

/// The table of no prices, with the root's value there. The only error is `NoMemory`.
pub fn unpriced_root(alloc: Global, evaluator: &mut Evaluator) -> Result<Priced, NoMemory>
    requires { HasEachPattern evaluator.old }
    ensures kept { evaluator.new ≡ evaluator.old }
    ensures table { IfOk result (λ priced. priced.table ≡ zero_table evaluator.old) }
    ensures priced { IfOk result (IsPricedOf evaluator.old) }
{
    let table = zero(alloc, evaluator.instance())?;
    with_value(alloc, evaluator, table)
}

/// The table of no prices, or that of a schedule's marginal prices where the root's value is greater there. The only error is
/// `NoMemory`.
pub fn dispatched_root(
    alloc: Global,
    evaluator: &mut Evaluator,
    printed: &Printed,
) -> Result<Priced, NoMemory>
    requires patterns { HasEachPattern evaluator.old }
    requires shape { HasShapeOf evaluator.old printed.now }
    requires whole { printed.now.denominator ≡ 1 }
    requires obeys { let q = printed_denominator evaluator.old printed.now in Obeys evaluator.old q (printed_schedule evaluator.old printed.now q) }
    ensures kept { evaluator.new ≡ evaluator.old }
    ensures table { IfOk result (λ priced. IsGreaterTable evaluator.old printed.now priced.table priced.value) }
    ensures priced { IfOk result (IsPricedOf evaluator.old) }
{
    let zero = unpriced_root(alloc, evaluator)?;
    let table = evaluator.marginal(alloc, printed)?;
    let marginal = with_value(alloc, evaluator, table)?;
    Ok(greater(zero, marginal))
}

// The one at which the root's value is greater; the first where both are equal.
fn greater(first: Priced, second: Priced) -> Priced
    ensures { result ≡ (if int_lt first.value second.value then second else first) }
{
    if first.value < second.value {
        second
    } else {
        first
    }
}
