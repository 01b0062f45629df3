//! How a search goes on.

/// The most workers of a search.
pub const MAX_WORKERS: u8 = 64;

/// How a search goes on: at most `budget` claims after the opening, by so many workers, and only while the cost is above the bound by
/// more than `gap` parts per million of its size. Where `exact_units`, the rays of the opening and each claim are by exact values VE, which keep
/// ramps in each unit; else by values V. Where `pivot`, the first claim on a node at which each cell is decided takes the exact dispatch of its
/// commitment: the cheapest schedule there with prices that prove it so, or a ray.
#[derive(Clone, Copy, Debug)]
pub struct Options {
    pub budget: u32,
    pub workers: u8,
    pub gap: u32,
    pub exact_units: bool,
    pub pivot: bool,
}
