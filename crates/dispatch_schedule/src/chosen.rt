//! The amounts that a basis chooses.

use dispatch_rules::Amount;

/// An amount, and the numerator of what is chosen of it, in watts.
#[derive(Debug, Clone, Copy)]
pub(crate) struct Chosen {
    pub(crate) amount: Amount,
    pub(crate) numerator: i64,
}
