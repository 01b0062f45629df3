//! The most-on commitment: for each thermal unit its allowed pattern with the most on periods.

ghost use Rattle.std.specs.Prelude.{IfOk, IfErr};
ghost use Rattle.uc_model.specs.Prelude.{IsLawfulInstance};
ghost use Rattle.dispatch_repair.specs.MostOn.{AreMostOn, IsMostFault};

use crate::extreme_patterns::most_of;
use std::alloc::{AllocFailed, Global};
use uc_model::{Instance, Pattern};

/// Why there is no most-on commitment: thermal unit `g`, from 0, is the first without an allowed pattern. Or memory was
/// refused.
#[derive(Clone, Copy, Debug)]
pub enum MostFault {
    Empty(u32),
    NoMemory,
}

impl<T: Drop> From<AllocFailed<T>> for MostFault {
    ghost use Rattle.std.specs.Prelude.{◌≡◌};
    ghost use Rattle.dispatch_repair.specs.declared.most_on_commitment.MostFault.TheVariants as fault;

    ghost from_gives = { λ _ e. e ≡ fault.NoMemory };

    fn from(_: AllocFailed<T>) -> Self {
        MostFault::NoMemory
    }
}

/// For each thermal unit, in the order of the instance, its allowed pattern with the most on periods. `Empty(g)` exactly
/// where unit `g`, from 0, is the first without an allowed pattern. The only other error is `NoMemory`.
pub fn most_on(alloc: Global, instance: &Instance) -> Result<Vec<Pattern>, MostFault>
    requires { IsLawfulInstance instance.now }
    ensures patterns { IfOk result (λ patterns. AreMostOn instance.now patterns.items) }
    ensures fault { IfErr result (IsMostFault instance.now) }
{
    let mut patterns = Vec::new(alloc);
    for (g, unit) in instance.thermal.as_slice().iter().enumerate() {
        match most_of(unit, instance.periods) {
            Some(pattern) => patterns.push(pattern)?,
            None => return Err(MostFault::Empty(g as u32)),
        }
    }
    Ok(patterns)
}
