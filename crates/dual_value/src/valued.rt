//! Why a node has no value.

use uc_model::NoMemory;

/// Why a node has no value: thermal unit `g`, from 0, is the first without a pattern. Or memory was refused.
#[derive(Clone, Copy, Debug)]
pub enum ValueFault {
    Empty(u32),
    NoMemory,
}

impl From<NoMemory> for ValueFault {
    ghost use Rattle.std.specs.Prelude.{◌≡◌};
    ghost use Rattle.dual_value.specs.declared.valued.ValueFault.TheVariants as fault;

    ghost from_gives = { λ _ e. e ≡ fault.NoMemory };

    fn from(_: NoMemory) -> Self {
        ValueFault::NoMemory
    }
}
