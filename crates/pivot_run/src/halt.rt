//! Why a step isn't made.

use crate::wide::Wide;
use uc_model::NoMemory;

/// Why a step isn't made.
#[derive(Debug, Clone, Copy)]
pub enum Halt<T> {
    /// It meets a limit.
    Met(T),
    /// Memory was refused.
    NoMemory,
}

impl From<Wide> for Halt<Wide> {
    ghost use Rattle.std.specs.Prelude.{◌≡◌};
    ghost use Rattle.pivot_run.specs.declared.halt.Halt.TheVariants.{Met};

    ghost from_gives = { λ wide halt. halt ≡ Met wide };

    fn from(wide: Wide) -> Self {
        Halt::Met(wide)
    }
}

impl<T> From<NoMemory> for Halt<T> {
    ghost use Rattle.std.specs.Prelude.{◌≡◌};
    ghost use Rattle.pivot_run.specs.declared.halt.Halt.TheVariants.{NoMemory as Refused};

    ghost from_gives = { λ _ halt. halt ≡ Refused };

    fn from(_: NoMemory) -> Self {
        Halt::NoMemory
    }
}
