//! What the evaluations of one instance share, made once.

ghost use Rattle.std.specs.Prelude.{◌≡◌, ◌<◌, ◌≤◌, ℕ, Bool, IfOk, get_or, length};
ghost use Rattle.uc_model.specs.Prelude.{IsLawfulInstance, no_unit};
ghost use Rattle.cost_curves.specs.UnitCurves.{AreCurvesOf};
ghost use Rattle.dual_value.specs.Rooms.{Instance, IsExactRoomOf, IsRoomFor, IsRoomOf, keeps_ramps};

use cost_curves::{Curve, curves_of};
use std::alloc::Global;
use std::marker::Model;
use uc_model::limits::MAX_POINTS;
use uc_model::{Instance, NoMemory, Thermal};
use unit_exact::Exact;

/// The curves of an instance's thermal units, memory for the prices of one unit at a time, and for exact values, which keep
/// ramps, the memory of one unit's. Contracts see the corners of each curve, the number of periods, and the size of this memory.
#[derive(Drop)]
pub struct Room {
    pub(crate) curves: Vec<Curve>,
    /// In each period the price of output, of reserve and of demand.
    pub(crate) rows: Vec<(i128, i128, i128)>,
    pub(crate) exact: Option<Exact>,
}

impl Model for Room {
    ghost use Rattle.std.specs.Prelude.{length};
    ghost use Rattle.dual_value.specs.Rooms.{RoomOf};

    ghost Value = { RoomOf };

    ghost view = { λ room. record { curves = room.curves.items; periods = length room.rows.items; exact = room.exact } };
}

impl Room {
    /// The room of an instance for values that price ramps. The only error is `NoMemory`.
    pub fn new(alloc: Global, instance: &Instance) -> Result<Room, NoMemory>
        requires { IsLawfulInstance instance.now }
        ensures { IfOk result (IsRoomOf instance.now) }
    {
        let curves = curves_of(alloc, instance)?;
        let rows = vec![in alloc; (0, 0, 0); instance.periods as usize]?;
        Ok(Room {
            curves,
            rows,
            exact: None,
        })
    }

    /// The room of an instance for exact values. The only error is `NoMemory`.
    pub fn for_exact_values(alloc: Global, instance: &Instance) -> Result<Room, NoMemory>
        requires { IsLawfulInstance instance.now }
        ensures { IfOk result (IsExactRoomOf instance.now) }
    {
        let mut room = Room::new(alloc, instance)?;
        let points = most_points(instance.thermal.as_slice());
        room.exact = Some(Exact::new(alloc, instance.periods as usize, points)?);
        Ok(room)
    }

    /// The curve of each thermal unit.
    pub fn curves(&self) -> &[Curve]
        ensures value { result.now ≡ self.now.curves }
        ensures curves { (exact : Bool) (instance : Instance) → IsRoomFor exact instance self.now → AreCurvesOf instance result.now }
    {
        &self.curves
    }
}

// The most points that one of the units has.
fn most_points(units: &[Thermal]) -> usize
    requires { (g : ℕ) → g < length units.now → length (get_or units.now g no_unit).points ≤ MAX_POINTS }
    ensures most { (g : ℕ) → g < length units.now → length (get_or units.now g no_unit).points ≤ result }
    ensures limit { result ≤ MAX_POINTS }
{
    let mut most = 0;
    for unit in units {
        most = most.max(unit.points.as_slice().len());
    }
    most
}
