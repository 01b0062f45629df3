//! What is shown of a cheapest basis.

use pivot_run::Wide;
use uc_model::Printed;

/// The schedule of a cheapest basis, or why there is none to print.
#[derive(Debug, Drop)]
pub enum Shown {
    /// The schedule, over the least denominator over which its powers are whole.
    Schedule(Printed),
    /// That denominator, above 99.
    Fine(i128),
    /// The factors of a product on the way to that denominator that is too large.
    Wide(Wide),
}
