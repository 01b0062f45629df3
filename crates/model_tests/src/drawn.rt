//! Small units with prices and decisions, drawn.

ghost use Rattle.std.specs.Prelude.{◌≤◌, All, IfOk, length};
ghost use Rattle.uc_model.specs.Prelude.{IsLawfulThermal};
ghost use Rattle.dual_model.specs.Prelude.{IsLawfulRow};
ghost use Rattle.model_tests.specs.SmallRows.{IsSmallRow};

use crate::draws::Draws;
use dual_model::Fix;
use std::alloc::{AllocError, Global};
use std::test::Fail;
use uc_model::{List, Name, Pattern, Point, StartRow, Thermal};

/// The points of each unit: outputs in watts, costs in micro-dollars an hour. The one in the middle lies below the line.
const POINTS: [Point; 3] = [
    Point { mw: 10, cost: 60 },
    Point { mw: 25, cost: 70 },
    Point { mw: 50, cost: 160 },
];

/// Limits of output at a start or a stop: none, one that matters, one that leaves the least output alone, and one that bars them.
const LIMITS: [u8; 4] = [50, 30, 10, 5];

/// A unit with minimum times and times before the horizon of up to four hours, and up to four start categories.
pub(crate) fn unit(alloc: Global, draws: &mut Draws) -> Result<Thermal, Fail>
    ensures { IfOk result IsLawfulThermal }
{
    let on0 = draws.once_in(2);
    let lasted = draws.below(5);
    let startup = start_rows(alloc, draws)?;
    Ok(Thermal {
        name: Name::from_string(String::new(alloc)),
        must_run: draws.once_in(8),
        pmin: 10,
        pmax: 50,
        ru: 50,
        rd: 50,
        su: i64::from(limit(draws)),
        sd: i64::from(limit(draws)),
        ut: 1 + u32::from(draws.below(4)),
        dt: 1 + u32::from(draws.below(4)),
        p0: i64::from(where_true(on0, 20)),
        on0,
        ut0: u32::from(where_true(on0, lasted)),
        dt0: u32::from(where_true(!on0, lasted)),
        startup: List::from_vec(startup),
        points: List::from_vec(Vec::from_array(alloc, POINTS)?),
    })
}

fn limit(draws: &mut Draws) -> u8 {
    LIMITS[usize::from(draws.below(4))]
}

fn where_true(test: bool, number: u8) -> u8 {
    if test { number } else { 0 }
}

// One to four start categories of lags of up to five hours, in any order, at -60 to 60 micro-dollars.
fn start_rows(alloc: Global, draws: &mut Draws) -> Result<Vec<StartRow>, AllocError>
    ensures count { IfOk result (λ rows. (1 ≤ length rows.items) × (length rows.items ≤ 4)) }
    ensures rows { IfOk result (λ rows. All IsSmallRow rows.items) }
{
    let mut rows = vec![in alloc; start_row(draws)]?;
    for _ in 0..draws.below(4) {
        rows.push(start_row(draws))?;
    }
    Ok(rows)
}

fn start_row(draws: &mut Draws) -> StartRow
    ensures { IsSmallRow result }
{
    StartRow {
        lag: u32::from(draws.below(6)),
        cost: i64::from(draws.around_zero(60)),
    }
}

/// The prices of output, of reserve and of demand in up to eight periods, of up to four micro-dollars for a watt.
pub(crate) fn prices(
    alloc: Global,
    draws: &mut Draws,
) -> Result<Vec<(i128, i128, i128)>, AllocError>
    ensures count { IfOk result (λ rows. (1 ≤ length rows.items) × (length rows.items ≤ 8)) }
    ensures lawful { IfOk result (λ rows. All IsLawfulRow rows.items) }
{
    let count = 1 + draws.below(8);
    let mut rows = Vec::new(alloc);
    for _ in 0..count {
        rows.push(row(draws))?;
    }
    Ok(rows)
}

fn row(draws: &mut Draws) -> (i128, i128, i128)
    ensures { IsLawfulRow result }
{
    let output = i128::from(draws.around_zero(4));
    let reserve = i128::from(draws.around_zero(2));
    let demand = i128::from(draws.around_zero(4));
    (output, reserve, demand)
}

/// Some periods are decided, on or off.
pub(crate) fn fix(draws: &mut Draws) -> Fix {
    let mut fix = Fix {
        known: Pattern::all_off(),
        on: Pattern::all_off(),
    };
    for t in 0..8 {
        if draws.once_in(8) {
            fix.known.switch_on(t);
        }
        if draws.once_in(2) {
            fix.on.switch_on(t);
        }
    }
    fix
}
