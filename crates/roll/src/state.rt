//! The states in which a schedule leaves the thermal units.

use uc_model::List;

/// The state of a thermal unit behind the periods that are kept: whether it is on, its total output in watts, the minimum
/// included, and for how many hours it has been on, or off.
#[derive(Clone, Copy, Debug)]
pub struct CarriedUnit {
    pub on: bool,
    pub output: i64,
    pub time_on: u32,
    pub time_off: u32,
}

/// The states of all thermal units, in the order of the instance.
#[derive(Debug, Drop)]
pub struct Carried {
    pub units: List<CarriedUnit>,
}
