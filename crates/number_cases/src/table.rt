//! Tables of prices: their numbers, and the values of roots at them.

ghost use Rattle.std.specs.Prelude.{◌≡◌, ◌<◌, ◌≤◌};
ghost use Rattle.uc_model.specs.Prelude.{IsLawfulInstance, HasShapeOf, printed_denominator, printed_schedule, Obeys};
ghost use Rattle.dual_model.specs.Prelude.{ray_count, IsLawfulTable};

use crate::Answer;
use crate::node::root_total;
use crate::text::{large_line, put_row};
use dual_model::{Node, RampRow, Table};
use prices::{marginal, opening_ray, step, zero};
use std::alloc::{AllocError, Global};
use uc_model::{Instance, NoMemory, Printed};

/// A line of the table's numbers.
pub(crate) fn put_table(text: &mut String, table: &Table) -> Result<(), AllocError> {
    put_row(text, "scale", &[table.k()])?;
    put_row(text, " demand", table.pi())?;
    put_row(text, " reserve", table.mu())?;
    for row in table.ramps() {
        put_ramp(text, row)?;
    }
    text.push_str("\n")
}

// A ramp row.
fn put_ramp(text: &mut String, row: &RampRow) -> Result<(), AllocError> {
    let unit = row.g.saturating_add(1);
    let period = row.t.saturating_add(1);
    write!(text, " ramp {unit}:{period}:{}:{}", row.up, row.down)
}

// The table's numbers, and the value of the root at it.
fn priced_text(alloc: Global, instance: &Instance, table: &Table) -> Answer
    requires lawful { IsLawfulInstance instance.now }
    requires table { IsLawfulTable instance.now table.now }
{
    let mut text = String::new(alloc);
    put_table(&mut text, table)?;
    text.push_str(root_total(alloc, instance, table)?.as_str())?;
    Ok(text)
}

/// The table of no prices, and the value of the root at it.
pub(crate) fn tell_zero(alloc: Global, instance: &Instance) -> Answer
    requires { IsLawfulInstance instance.now }
{
    priced_text(alloc, instance, &zero(alloc, instance)?)
}

/// The opening's rays, and the value of the root at each.
pub(crate) fn tell_rays(alloc: Global, instance: &Instance) -> Answer
    requires { IsLawfulInstance instance.now }
{
    let mut text = String::new(alloc);
    for n in 0..4 * instance.periods + 4 {
        text.push_str(ray_text(alloc, instance, n)?.as_str())?;
    }
    Ok(text)
}

// A ray of the opening, and the value of the root at it.
fn ray_text(alloc: Global, instance: &Instance, n: u32) -> Answer
    requires lawful { IsLawfulInstance instance.now }
    requires number { n < ray_count instance.now.periods }
{
    priced_text(alloc, instance, &opening_ray(alloc, instance, n)?)
}

/// The marginal prices of a schedule, and the value of the root at them.
pub(crate) fn marginal_text(alloc: Global, instance: &Instance, printed: &Printed) -> Answer
    requires lawful { IsLawfulInstance instance.now }
    requires shape { HasShapeOf instance.now printed.now }
    requires whole { printed.now.denominator ≡ 1 }
    requires obeys { let q = printed_denominator instance.now printed.now in Obeys instance.now q (printed_schedule instance.now printed.now q) }
{
    priced_text(alloc, instance, &marginal(alloc, instance, printed)?)
}

/// The scale of the table to try behind so many at the root.
pub(crate) fn tell_step(alloc: Global, instance: &Instance, words: &str) -> Answer
    requires { IsLawfulInstance instance.now }
{
    let had = u32::from(words.parse::<u16>().unwrap_or(0));
    let table = zero(alloc, instance)?;
    let scale = stepped(alloc, instance, &table, had);
    drop(table);
    large_line(alloc, "scale", &[i128::from(scale?)])
}

// The scale of the table to try at the root behind so many, of which this is the last.
fn stepped(alloc: Global, instance: &Instance, table: &Table, had: u32) -> Result<i64, NoMemory>
    requires lawful { IsLawfulInstance instance.now }
    requires table { IsLawfulTable instance.now table.now }
    requires count { had ≤ 65535 }
{
    let root = Node::root(alloc);
    Ok(step(alloc, instance, &root, table, None, had)?.k())
}
