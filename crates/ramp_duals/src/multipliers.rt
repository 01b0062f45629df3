//! The ramp multipliers of one unit, period by period.

ghost use Rattle.std.specs.Prelude.{◌≡◌, suc, ◌+◌, ◌^◌, ◌<◌, ◌&&◌, ◌==◌};
ghost use Rattle.ramp_duals.specs.RampRows.{AreOf, AreRising, IsPlace};

use crate::search::place;
use dual_model::RampRow;

/// The multipliers of a cell, and how many rows stand before the next cell of its unit.
#[derive(Clone, Copy)]
pub(crate) struct Multipliers {
    pub(crate) up: i64,
    pub(crate) down: i64,
    next: usize,
}

/// The multipliers of unit `g` in period `t`, both from 0.
pub(crate) fn multipliers_of(rows: &[RampRow], g: u32, t: usize) -> Multipliers
    requires { AreRising rows.now }
    ensures { AreOf rows.now g t result }
{
    from_place(rows, g, t, place(rows, g, t))
}

/// Those of the period after `t`, from the ones of `t`.
pub(crate) fn following(rows: &[RampRow], g: u32, t: usize, now: Multipliers) -> Multipliers
    requires rising { AreRising rows.now }
    requires now { AreOf rows.now g t now }
    requires period { t + 1 < 2 ^ 64 }
    ensures { AreOf rows.now g (suc t) result }
{
    from_place(rows, g, t + 1, now.next)
}

// Those of unit g in period t, whose place is known.
fn from_place(rows: &[RampRow], g: u32, t: usize, place: usize) -> Multipliers
    requires rising { AreRising rows.now }
    requires place { IsPlace rows.now g t place }
    ensures { AreOf rows.now g t result }
{
    if place < rows.len() && is_of(&rows[place], g, t) {
        Multipliers {
            up: rows[place].up,
            down: rows[place].down,
            next: place + 1,
        }
    } else {
        Multipliers {
            up: 0,
            down: 0,
            next: place,
        }
    }
}

// Whether the row is that of unit g in period t.
fn is_of(row: &RampRow, g: u32, t: usize) -> bool
    ensures { result ≡ ((row.now.g == g) && (row.now.t == t)) }
{
    row.g == g && row.t as usize == t
}
