//! The dispatch of a commitment.

ghost use Rattle.std.specs.Prelude.{◌≡◌, ◌<◌, ◌≤◌, IfOk, IfErr, MatchOption, length};
ghost use Rattle.uc_model.specs.Prelude.{IsLawfulInstance, HasShapeOf, printed_denominator, printed_schedule, Obeys, thermal_count};
ghost use Rattle.schedule_check.specs.PlainNumbers.{HasPlainNumbers};
ghost use Rattle.dispatch_repair.specs.Rooms.{AreRowsOf, IsObstacleOf, IsRoomOf, IsStuckAfter, printed_of};
ghost use Rattle.dispatch_repair.specs.Stuck.{IsDispatchFault, IsDispatchOf, IsRegular};

use crate::period::{begin, dispatch_period};
use crate::regularity::first_broken_rule;
use crate::room::Room;
use crate::rows::{Rows, committed, first_periods, printed, write_period};
use std::alloc::Global;
use uc_model::{Instance, NoMemory, Pattern, Printed, Stuck, Why};

/// Why a commitment has no dispatch.
#[derive(Debug, Drop)]
pub enum DispatchFault {
    /// It got stuck.
    Stuck(Stuck),
    /// Memory was refused.
    NoMemory,
}

impl From<NoMemory> for DispatchFault {
    ghost use Rattle.std.specs.Prelude.{◌≡◌};
    ghost use Rattle.dispatch_repair.specs.declared.schedule.DispatchFault.TheVariants as fault;

    ghost from_gives = { λ _ e. e ≡ fault.NoMemory };

    fn from(_: NoMemory) -> Self {
        DispatchFault::NoMemory
    }
}

/// The schedule of a commitment, a pattern for each thermal unit: each period is filled in order of merit from the one
/// before, and reserve is given in the order of the file. `Stuck` exactly where the commitment breaks M1 to M5 or M7, or a
/// period can't be filled; the only other error is `NoMemory`.
pub fn dispatch(
    alloc: Global,
    instance: &Instance,
    patterns: &[Pattern],
) -> Result<Printed, DispatchFault>
    requires lawful { IsLawfulInstance instance.now }
    requires patterns { length patterns.now ≡ thermal_count instance.now }
    ensures dispatch { IfOk result (IsDispatchOf instance.now patterns.now) }
    ensures obeys { IfOk result (λ printed. let q = printed_denominator instance.now printed in
        Obeys instance.now q (printed_schedule instance.now printed q)) }
    ensures shape { IfOk result (HasShapeOf instance.now) }
    ensures numbers { IfOk result HasPlainNumbers }
    ensures fault { IfErr result (IsDispatchFault instance.now patterns.now) }
{
    let mut room = Room::new(alloc, instance)?;
    let rows = committed(alloc, instance, patterns)?;
    if let Some(broken) = first_broken_rule(instance, patterns, &rows) {
        let why = Why::Rule {
            rule: broken.rule,
            unit: broken.unit,
        };
        let obstacle = Obstacle { period: 0, why };
        return Err(DispatchFault::Stuck(stuck_at(alloc, rows, obstacle)?));
    }
    dispatched(alloc, &mut room, instance, patterns, rows)
}

// Dispatches a commitment that keeps these rules.
fn dispatched(
    alloc: Global,
    room: &mut Room,
    instance: &Instance,
    patterns: &[Pattern],
    rows: Rows,
) -> Result<Printed, DispatchFault>
    requires lawful { IsLawfulInstance instance.now }
    requires patterns { length patterns.now ≡ thermal_count instance.now }
    requires regular { IsRegular instance.now patterns.now }
    requires room { IsRoomOf instance.now room.old }
    requires rows { AreRowsOf instance.now patterns.now rows }
    ensures dispatch { IfOk result (IsDispatchOf instance.now patterns.now) }
    ensures fault { IfErr result (IsDispatchFault instance.now patterns.now) }
{
    let mut rows = rows;
    match dispatch_rows(room, instance, patterns, &mut rows) {
        None => Ok(printed(alloc, rows)?),
        Some(obstacle) => Err(DispatchFault::Stuck(stuck_at(alloc, rows, obstacle)?)),
    }
}

/// Where a dispatch is stuck, in a period from 0, and why.
#[derive(Debug, Drop)]
pub struct Obstacle {
    pub period: usize,
    pub why: Why,
}

/// Dispatches the commitment of the rows, which keeps M1 to M5 and M7, period after period, and writes it into them; or says
/// what is in the way first, with the periods before it written.
pub fn dispatch_rows(
    room: &mut Room,
    instance: &Instance,
    patterns: &[Pattern],
    rows: &mut Rows,
) -> Option<Obstacle>
    requires lawful { IsLawfulInstance instance.now }
    requires patterns { length patterns.now ≡ thermal_count instance.now }
    requires regular { IsRegular instance.now patterns.now }
    requires room { IsRoomOf instance.now room.old }
    requires rows { AreRowsOf instance.now patterns.now rows.old }
    ensures room { IsRoomOf instance.now room.new }
    ensures rows { AreRowsOf instance.now patterns.now rows.new }
    ensures dispatch { MatchOption result (IsDispatchOf instance.now patterns.now (printed_of rows.new))
        (IsObstacleOf instance.now patterns.now (printed_of rows.new)) }
{
    begin(room, instance);
    for t in 0..instance.periods as usize {
        match dispatch_period(room, instance, patterns, t) {
            Ok(shortage) => write_period(instance, rows, room, &shortage, t),
            Err(why) => return Some(Obstacle { period: t, why }),
        }
    }
    None
}

/// The obstacle with the schedule of the periods before it. The only error is `NoMemory`.
pub fn stuck_at(alloc: Global, rows: Rows, obstacle: Obstacle) -> Result<Stuck, NoMemory>
    ensures { IfOk result (IsStuckAfter (printed_of rows) obstacle.period obstacle.why) }
{
    let prefix = first_periods(alloc, rows, obstacle.period)?;
    Ok(Stuck {
        period: obstacle.period,
        prefix,
        why: obstacle.why,
    })
}
