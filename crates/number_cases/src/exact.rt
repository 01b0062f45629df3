//! The exact value of the first unit of a system, the solver's way and the checker's.

ghost use Rattle.std.specs.Prelude.{◌<◌, IfOk};
ghost use Rattle.uc_model.specs.Prelude.{IsLawfulInstance, thermal_count, thermal_unit};
ghost use Rattle.cost_curves.specs.LowerHull.{IsLowerHull};
ghost use Rattle.dual_model.specs.Prelude.{IsLawfulTable};

use crate::Answer;
use crate::commitment::pattern;
use crate::text::{first, large_line, told};
use crate::uplifts::table_with;
use cost_curves::Curve;
use dual_model::{Fix, Table};
use state_walk::{ExactWalk, least_exact};
use std::alloc::Global;
use uc_model::limits::MAX_POINTS;
use uc_model::{Instance, NoMemory, Pattern};
use unit_exact::{Exact, least};

// Prices, and what is decided.
#[derive(Drop)]
struct Asked {
    table: Table,
    fix: Fix,
}

/// The exact value of the first unit, as `DEMAND RESERVE KNOWN ON` says: prices of demand and of reserve, the periods that are
/// decided, and those of them in which the unit is on. It is the solver's, with a pattern, or the checker's.
pub(crate) fn tell_exact(
    alloc: Global,
    instance: &Instance,
    words: &str,
    is_checked: bool,
) -> Answer
    requires { IsLawfulInstance instance.now }
{
    if instance.thermal.as_slice().is_empty() {
        return told(alloc, "no unit\n");
    }
    let asked = read_words(alloc, instance, words)?;
    let answer = if is_checked {
        checked_text(alloc, instance, &asked)
    } else {
        found_text(alloc, instance, &asked)
    };
    drop(asked);
    answer
}

// What the words say.
fn read_words(alloc: Global, instance: &Instance, words: &str) -> Result<Asked, NoMemory>
    requires { IsLawfulInstance instance.now }
    ensures { IfOk result (λ asked. IsLawfulTable instance.now asked.table) }
{
    let (demand, words) = first(words);
    let (reserve, words) = first(words);
    let (known, on) = first(words);
    let demand = demand.parse::<i32>().unwrap_or(0);
    let reserve = reserve.parse::<u32>().unwrap_or(0);
    let table = table_with(alloc, instance, demand, reserve, &[])?;
    let fix = Fix {
        known: pattern(known),
        on: pattern(on),
    };
    Ok(Asked { table, fix })
}

// The solver's value and pattern.
fn found_text(alloc: Global, instance: &Instance, asked: &Asked) -> Answer
    requires lawful { IsLawfulInstance instance.now }
    requires some { 0 < thermal_count instance.now }
    requires table { IsLawfulTable instance.now asked.now.table }
{
    match found(alloc, instance, asked)? {
        Some((value, pattern)) => Ok(format!(in alloc; "exact {value} {}\n", pattern.low)?),
        None => told(alloc, "no schedule\n"),
    }
}

// The checker's value.
fn checked_text(alloc: Global, instance: &Instance, asked: &Asked) -> Answer
    requires lawful { IsLawfulInstance instance.now }
    requires some { 0 < thermal_count instance.now }
    requires table { IsLawfulTable instance.now asked.now.table }
{
    match checked(alloc, instance, asked)? {
        Some(value) => large_line(alloc, "exact", &[value]),
        None => told(alloc, "no schedule\n"),
    }
}

// The exact value of the first unit at the table, with a pattern.
fn found(
    alloc: Global,
    instance: &Instance,
    asked: &Asked,
) -> Result<Option<(i128, Pattern)>, NoMemory>
    requires lawful { IsLawfulInstance instance.now }
    requires some { 0 < thermal_count instance.now }
    requires table { IsLawfulTable instance.now asked.now.table }
{
    let curve = first_curve(alloc, instance)?;
    let value = match Exact::new(alloc, instance.periods as usize, MAX_POINTS) {
        Ok(exact) => {
            let mut exact = exact;
            let value = least(&mut exact, instance, &curve, &asked.table, 0, &asked.fix);
            drop(exact);
            Ok(value)
        }
        Err(NoMemory) => Err(NoMemory),
    };
    drop(curve);
    value
}

// And by a walk.
fn checked(alloc: Global, instance: &Instance, asked: &Asked) -> Result<Option<i128>, NoMemory>
    requires lawful { IsLawfulInstance instance.now }
    requires some { 0 < thermal_count instance.now }
    requires table { IsLawfulTable instance.now asked.now.table }
{
    let curve = first_curve(alloc, instance)?;
    let value = match ExactWalk::new(alloc, instance.periods as usize, MAX_POINTS) {
        Ok(walk) => {
            let mut walk = walk;
            let value = least_exact(&mut walk, instance, &curve, &asked.table, 0, &asked.fix);
            drop(walk);
            Ok(value)
        }
        Err(NoMemory) => Err(NoMemory),
    };
    drop(curve);
    value
}

// The curve of the first unit.
fn first_curve(alloc: Global, instance: &Instance) -> Result<Curve, NoMemory>
    requires lawful { IsLawfulInstance instance.now }
    requires some { 0 < thermal_count instance.now }
    ensures { IfOk result (IsLowerHull (thermal_unit instance.now 0).points) }
{
    Curve::of(alloc, instance.thermal.as_slice()[0].points.as_slice())
}
