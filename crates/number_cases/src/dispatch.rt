//! The dispatch of commitments.

ghost use Rattle.std.specs.Prelude.{◌≡◌, ◌≤◌, IfOk, IfSome};
ghost use Rattle.uc_model.specs.Prelude.{IsLawfulInstance, HasShapeOf, printed_denominator, printed_schedule, Obeys};
ghost use Rattle.schedule_check.specs.PlainNumbers.{HasPlainNumbers};

use crate::Answer;
use crate::commitment::patterns;
use crate::pivot::tell_pivot;
use crate::reporting::tell_report;
use crate::table::marginal_text;
use crate::text::{first, put_line, told, whole};
use crate::uplifts::tell_uplift;
use dispatch_repair::{DispatchFault, MostFault, dispatch, most_on};
use instance::penalize;
use schedule_check::cost;
use std::alloc::{AllocError, Global};
use uc_model::limits::MAX_PENALTY;
use uc_model::{Cell, Instance, NoMemory, Pattern, Printed, Stuck};

/// Why words have no dispatch.
#[derive(Drop)]
pub(crate) enum NoDispatch {
    /// They are not a pattern for each unit.
    Count,
    Stuck(Stuck),
    NoMemory,
}

/// The dispatch of the commitment that the words tell.
pub(crate) fn dispatched(
    alloc: Global,
    instance: &Instance,
    words: &str,
) -> Result<Printed, NoDispatch>
    requires { IsLawfulInstance instance.now }
    ensures obeys { IfOk result (λ printed. let q = printed_denominator instance.now printed in Obeys instance.now q (printed_schedule instance.now printed q)) }
    ensures shape { IfOk result (HasShapeOf instance.now) }
    ensures numbers { IfOk result HasPlainNumbers }
    ensures whole { IfOk result (λ printed. printed.denominator ≡ 1) }
{
    let Ok(patterns) = patterns(alloc, words) else {
        return Err(NoDispatch::NoMemory);
    };
    let printed = dispatch_of(alloc, instance, &patterns);
    drop(patterns);
    printed
}

// The dispatch of a commitment.
fn dispatch_of(
    alloc: Global,
    instance: &Instance,
    patterns: &[Pattern],
) -> Result<Printed, NoDispatch>
    requires { IsLawfulInstance instance.now }
    ensures obeys { IfOk result (λ printed. let q = printed_denominator instance.now printed in Obeys instance.now q (printed_schedule instance.now printed q)) }
    ensures shape { IfOk result (HasShapeOf instance.now) }
    ensures numbers { IfOk result HasPlainNumbers }
    ensures whole { IfOk result (λ printed. printed.denominator ≡ 1) }
{
    if patterns.len() != instance.thermal.as_slice().len() {
        return Err(NoDispatch::Count);
    }
    match dispatch(alloc, instance, patterns) {
        Ok(printed) => Ok(printed),
        Err(DispatchFault::Stuck(stuck)) => Err(NoDispatch::Stuck(stuck)),
        Err(DispatchFault::NoMemory) => Err(NoDispatch::NoMemory),
    }
}

/// What is answered where words have no dispatch.
pub(crate) fn no_dispatch(alloc: Global, why: NoDispatch) -> Answer {
    match why {
        NoDispatch::Count => no_commitment(alloc),
        NoDispatch::Stuck(stuck) => stuck_text(String::new(alloc), &stuck),
        NoDispatch::NoMemory => Err(NoMemory),
    }
}

/// What is answered where words are not a pattern for each unit.
pub(crate) fn no_commitment(alloc: Global) -> Answer {
    told(alloc, "a pattern for each unit\n")
}

/// What a commitment's dispatch gives, or its marginal prices, or where and why it is stuck and what it gives before.
pub(crate) fn tell_dispatch(alloc: Global, instance: &Instance, word: &str, rest: &str) -> Answer
    requires { IsLawfulInstance instance.now }
{
    match dispatched(alloc, instance, rest) {
        Ok(printed) => {
            let text = match word {
                "marginal" => marginal_text(alloc, instance, &printed),
                "priced" => shortage_text(alloc, &printed, cost(instance, &printed)),
                _ => schedule_text(String::new(alloc), &printed),
            };
            drop(printed);
            text
        }
        Err(why) => no_dispatch(alloc, why),
    }
}

/// The same at prices of demand and of reserve that is missing, which come first; with what is missing, and the cost. Or the
/// uplifts, a report, or the exact dispatch, at these prices.
pub(crate) fn tell_priced(alloc: Global, instance: Instance, word: &str, rest: &str) -> Answer
    requires { IsLawfulInstance instance }
{
    let mut instance = instance;
    let answer = match prices(rest) {
        Some((a, b, rest)) if penalize(&mut instance, a, b) => match word {
            "uplift" => tell_uplift(alloc, &instance, rest),
            "report" => tell_report(alloc, &instance, rest),
            "pivot" => tell_pivot(alloc, &instance, rest),
            _ => tell_dispatch(alloc, &instance, word, rest),
        },
        _ => told(alloc, "no such prices\n"),
    };
    drop(instance);
    answer
}

// Two prices, and what comes behind them.
fn prices(rest: &str) -> Option<(u32, u32, &str)>
    ensures { IfSome result (λ read. (read.0 ≤ MAX_PENALTY) × (read.1 ≤ MAX_PENALTY)) }
{
    let (a, rest) = price(rest)?;
    let (b, rest) = price(rest)?;
    Some((a, b, rest))
}

// A price, and what comes behind it.
fn price(rest: &str) -> Option<(u32, &str)>
    ensures { IfSome result (λ pair. pair.0 ≤ MAX_PENALTY) }
{
    let (word, rest) = first(rest);
    match word.parse::<u32>() {
        Ok(price) if price <= MAX_PENALTY => Some((price, rest)),
        _ => None,
    }
}

/// The unit's patterns with the most on periods, as their first periods' bits in a number, or the first unit without one.
pub(crate) fn tell_most_on(alloc: Global, instance: &Instance) -> Answer
    requires { IsLawfulInstance instance.now }
{
    match most_on(alloc, instance) {
        Ok(patterns) => {
            let mut text = String::new(alloc);
            let put = put_patterns(&mut text, &patterns);
            drop(patterns);
            whole(put, text)
        }
        Err(MostFault::Empty(g)) => Ok(format!(in alloc; "empty {}\n", g.saturating_add(1))?),
        Err(MostFault::NoMemory) => Err(NoMemory),
    }
}

// A line of patterns.
fn put_patterns(text: &mut String, patterns: &[Pattern]) -> Result<(), AllocError> {
    text.push_str("patterns")?;
    for pattern in patterns {
        write!(text, " {}", pattern.low)?;
    }
    text.push_str("\n")
}

/// A text, and behind it where and why a dispatch is stuck, and what it gives before.
pub(crate) fn stuck_text(text: String, stuck: &Stuck) -> Answer {
    let mut text = text;
    let period = stuck.period.saturating_add(1);
    writeln!(text, "stuck in period {period}: {:?}", stuck.why)?;
    schedule_text(text, &stuck.prefix)
}

// A text with the rows of a schedule behind it.
fn schedule_text(text: String, printed: &Printed) -> Answer {
    let mut text = text;
    let put = put_schedule(&mut text, printed);
    whole(put, text)
}

// A schedule with what is missing in each period, and its cost.
fn shortage_text(alloc: Global, printed: &Printed, cost: i64) -> Answer {
    let mut text = String::new(alloc);
    let put = put_priced(&mut text, printed, cost);
    whole(put, text)
}

fn put_priced(text: &mut String, printed: &Printed, cost: i64) -> Result<(), AllocError> {
    put_schedule(text, printed)?;
    put_missing(text, printed)?;
    put_line(text, "cost", &[cost])
}

/// The rows of what is missing in each period, of demand and of reserve.
pub(crate) fn put_missing(text: &mut String, printed: &Printed) -> Result<(), AllocError> {
    put_line(text, "shed", printed.shed.as_slice())?;
    put_line(text, "short", printed.short.as_slice())
}

/// The rows of a schedule: output above the minimum, reserve and start category of each thermal unit in each period, and the
/// output of each renewable one.
pub(crate) fn put_schedule(text: &mut String, printed: &Printed) -> Result<(), AllocError> {
    for row in printed.thermal.as_slice() {
        put_cells(text, row.as_slice())?;
    }
    for row in printed.renewable.as_slice() {
        put_line(text, "renewable", row.as_slice())?;
    }
    Ok(())
}

// The row of a thermal unit.
fn put_cells(text: &mut String, cells: &[Cell]) -> Result<(), AllocError> {
    text.push_str("thermal")?;
    for cell in cells {
        put_cell(text, cell)?;
    }
    text.push_str("\n")
}

fn put_cell(text: &mut String, cell: &Cell) -> Result<(), AllocError> {
    if cell.on {
        write!(text, " {}:{}:{}", cell.p, cell.r, cell.category)
    } else {
        text.push_str(" off")
    }
}
