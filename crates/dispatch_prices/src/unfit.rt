//! Why a last row gives no prices.

use pivot_run::Wide;

/// Why a last row gives no prices.
#[derive(Debug, Clone, Copy)]
pub enum Unfit {
    /// A product that is too large.
    Product(Wide),
    /// A multiplier above 10^14 in size.
    Multiplier(i128),
    /// Memory was refused.
    NoMemory,
}
