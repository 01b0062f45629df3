//! The problem of one thermal unit at a price table, with ramps kept.

use dual_model::{Fix, Table};
use step_functions::ConvexFunction;
use uc_model::Thermal;

/// One unit over so many periods, the prices, what is decided of the unit, and L on its points.
#[derive(Clone, Copy)]
pub struct Problem<'a> {
    pub periods: usize,
    pub table: &'a Table,
    pub unit: &'a Thermal,
    pub fix: &'a Fix,
    pub hull: &'a ConvexFunction,
}
