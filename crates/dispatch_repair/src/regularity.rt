//! The rules on commitments: M1 to M5 and M7.

ghost use Rattle.std.specs.Prelude.{◌≡◌, suc, ◌<◌, length, Some};
ghost use Rattle.uc_model.specs.Prelude.{IsLawfulInstance, thermal_count, thermal_unit};
ghost use Rattle.dispatch_repair.specs.Rooms.{ArePowerless, AreRowsOf};
ghost use Rattle.dispatch_repair.specs.inside.Broken.{IsEarlier, IsFirstOf};

use crate::rows::Rows;
use schedule_check::broken_rule;
use uc_model::{Instance, Pattern};

/// A rule M`rule` and the unit, from 0, that breaks it.
#[derive(Clone, Copy)]
pub(crate) struct BrokenRule {
    pub rule: u8,
    pub unit: usize,
}

/// The first rule on commitments that a unit breaks, and the first unit that breaks it.
pub(crate) fn first_broken_rule(
    instance: &Instance,
    patterns: &[Pattern],
    rows: &Rows,
) -> Option<BrokenRule>
    requires lawful { IsLawfulInstance instance.now }
    requires rows { AreRowsOf instance.now patterns.now rows.now }
    requires powerless { ArePowerless instance.now rows.now }
    ensures { IsFirstOf instance.now patterns.now (thermal_count instance.now) result }
{
    let units = instance.thermal.as_slice();
    let mut first = None;
    for unit in 0..units.len() {
        if let Some(rule) = broken_rule(&units[unit], &rows.thermal[unit]) {
            first = earlier(first, BrokenRule { rule, unit });
        }
    }
    first
}

// The earlier of a broken rule and one of a later unit.
fn earlier(first: Option<BrokenRule>, later: BrokenRule) -> Option<BrokenRule>
    ensures { IsEarlier first later result }
{
    match first {
        Some(broken) if broken.rule <= later.rule => first,
        _ => Some(later),
    }
}
