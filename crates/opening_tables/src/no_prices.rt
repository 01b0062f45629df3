//! Tables at which every price is 0.

ghost use Rattle.std.specs.Prelude.{◌≡◌, pos, IfOk, replicate};
ghost use Rattle.uc_model.specs.Prelude.{IsLawfulInstance};
ghost use Rattle.dual_model.specs.Prelude.{unpriced_table, zero_table, IsLawfulTable, IsLawfulScale};

use dual_model::Table;
use std::alloc::Global;
use uc_model::{Instance, NoMemory};

/// The scale at which a price is in micro-dollars for a megawatt.
pub const SCALE: i64 = 1_000_000;

/// The table of no prices, at the scale of a million. The only error is `NoMemory`.
pub fn zero(alloc: Global, instance: &Instance) -> Result<Table, NoMemory>
    requires { IsLawfulInstance instance.now }
    ensures table { IfOk result (λ table. table ≡ zero_table instance.now) }
    ensures lawful { IfOk result (IsLawfulTable instance.now) }
{
    unpriced(alloc, instance, SCALE)
}

/// The table where every price is 0, at the scale `k`, with which a unit's costs count at the scale 0 not at all. The only
/// error is `NoMemory`.
pub fn unpriced(alloc: Global, instance: &Instance, k: i64) -> Result<Table, NoMemory>
    requires lawful { IsLawfulInstance instance.now }
    requires scale { IsLawfulScale k }
    ensures table { IfOk result (λ table. table ≡ unpriced_table instance.now k) }
    ensures lawful { IfOk result (IsLawfulTable instance.now) }
{
    let zeros = zeros(alloc, instance.periods as usize)?;
    let units = instance.thermal.as_slice().len() as u32;
    Table::new(alloc, units, k, &zeros, &zeros, &[])
}

/// A price of 0 in each period.
pub(crate) fn zeros(alloc: Global, periods: usize) -> Result<Vec<i64>, NoMemory>
    ensures { IfOk result (λ zeros. zeros.items ≡ replicate periods (pos 0)) }
{
    Ok(vec![in alloc; 0; periods]?)
}
