//! What the reader of an instance knows while it reads.

ghost use Rattle.std.specs.Prelude.{◌≡◌, IsTrue};

mod arrays;
mod numbers;
mod renewable;
mod rows;
mod thermal;
pub(crate) mod totals;
pub(crate) mod units;

/// A reader of numbers, which counts those that are rounded.
#[derive(Drop)]
pub(crate) struct Reader {
    /// A rounded number is refused.
    pub(crate) exact: bool,
    /// How many of the numbers that were read are rounded.
    pub(crate) rounded: u64,
    ghost none_if_exact: { IsTrue exact → rounded ≡ 0 },
}
