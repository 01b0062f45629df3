//! Megawatts as watts, and dollars as micro-dollars.

ghost use Rattle.std.specs.Prelude.{◌≡◌, IfOk, replicate};
ghost use Rattle.demo_gen.specs.Demo.{millions};

use std::alloc::Global;
use uc_model::NoMemory;

/// How many hours there are.
pub(crate) const HOURS: u32 = 24;

/// Megawatts as watts, or dollars as micro-dollars.
pub(crate) fn millions_of(number: u32) -> i64
    ensures { result ≡ millions number }
{
    i64::from(number) * 1_000_000
}

/// So many megawatts in each hour, in watts. The only error is `NoMemory`.
pub(crate) fn in_each_hour(alloc: Global, megawatts: u32) -> Result<Vec<i64>, NoMemory>
    ensures { IfOk result (λ powers. powers.items ≡ replicate 24 (millions megawatts)) }
{
    Ok(vec![in alloc; millions_of(megawatts); HOURS as usize]?)
}
