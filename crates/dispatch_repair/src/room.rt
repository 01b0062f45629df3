//! What the dispatches of one instance share, made once.

ghost use Rattle.std.specs.Prelude.{IfOk};
ghost use Rattle.uc_model.specs.Prelude.{IsLawfulInstance};
ghost use Rattle.dispatch_repair.specs.Rooms.{IsRoomOf};

use crate::merit_order::merit_order;
use crate::range::Range;
use crate::segment::Segment;
use std::alloc::Global;
use uc_model::{Instance, NoMemory};

/// The segments of an instance's sources in order of merit, and memory for one period: the sources' ranges and amounts,
/// and the thermal units' heads.
#[derive(Drop)]
pub struct Room {
    pub(crate) order: Vec<Segment>,
    pub(crate) ranges: Vec<Range>,
    pub(crate) amounts: Vec<i64>,
    pub(crate) heads: Vec<i64>,
}

impl Room {
    /// The room of an instance. The only error is `NoMemory`.
    pub fn new(alloc: Global, instance: &Instance) -> Result<Room, NoMemory>
        requires { IsLawfulInstance instance.now }
        ensures { IfOk result (IsRoomOf instance.now) }
    {
        let thermal = instance.thermal.as_slice().len();
        let sources = instance.renewable.as_slice().len() + thermal;
        let order = merit_order(alloc, instance)?;
        let ranges = vec![in alloc; Range { low: 0, high: 0 }; sources]?;
        let amounts = vec![in alloc; 0; sources]?;
        let heads = vec![in alloc; 0; thermal]?;
        Ok(Room {
            order,
            ranges,
            amounts,
            heads,
        })
    }
}
