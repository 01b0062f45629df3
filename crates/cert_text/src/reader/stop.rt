//! Why reading stops.

ghost use Rattle.std.specs.Prelude.{◌≡◌};
ghost use Rattle.cert_text.specs.declared.reader.stop.Stop.TheVariants.{NoMemory};

use std::alloc::{AllocError, AllocFailed};

/// Why a part was not read.
#[derive(Drop)]
pub(crate) enum Stop<'a> {
    /// The bytes from the line on that may not stand there.
    At(&'a [u8]),
    /// Memory was refused.
    NoMemory,
}

impl From<uc_model::NoMemory> for Stop<'_> {
    ghost from_gives = { λ _ e. e ≡ NoMemory };

    fn from(_: uc_model::NoMemory) -> Self {
        Stop::NoMemory
    }
}

impl From<AllocError> for Stop<'_> {
    ghost from_gives = { λ _ e. e ≡ NoMemory };

    fn from(_: AllocError) -> Self {
        Stop::NoMemory
    }
}

impl<T: Drop> From<AllocFailed<T>> for Stop<'_> {
    ghost from_gives = { λ _ e. e ≡ NoMemory };

    fn from(_: AllocFailed<T>) -> Self {
        Stop::NoMemory
    }
}
