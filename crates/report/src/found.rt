//! The report of what a search found.

ghost use Rattle.std.specs.Prelude.{◌≤◌, OnOk, OnErr};
ghost use Rattle.outside.specs.Prelude.{SinkWrites, SinkWritesFront};
ghost use Rattle.branch_tree.specs.Prelude.{tree_bound};
ghost use Rattle.report.specs.FoundReport.{size_line, state_line, bound_line, evaluations_line, schedule_summary, schedule_report, no_schedule_summary, no_schedule_report, found_report};

use crate::schedule::put_schedule;
use crate::stuck::put_stuck;
use branch_tree::{Found, is_within_gap};
use outside::{Failed, Latch, Out, Sink, SinkWriter, put_count, put_money_line, put_whole_line};
use uc_model::tolerance::WHOLE_GAP;
use uc_model::{Instance, Printed};

/// The numbers of periods, units and rounded numbers.
pub(crate) fn put_size<O: Out>(out: &mut O, instance: &Instance, rounded: u64)
    ensures { O.emits (size_line instance.now rounded) out.old out.new }
{
    let thermal = instance.thermal.as_slice().len();
    let renewable = instance.renewable.as_slice().len();
    put_count(out, b"periods ", u64::from(instance.periods));
    put_count(out, b" thermal ", thermal as u64);
    put_count(out, b" renewable ", renewable as u64);
    put_count(out, b" rounded ", rounded);
    out.put(b"\n");
}

fn put_state<O: Out>(out: &mut O, closed: bool)
    ensures { O.emits (state_line closed) out.old out.new }
{
    if closed {
        out.put(b"closed\n");
    } else {
        out.put(b"budget spent\n");
    }
}

pub(crate) fn put_bound<O: Out>(out: &mut O, bound: &Option<i128>)
    ensures { O.emits (bound_line bound.now) out.old out.new }
{
    if let Some(bound) = bound {
        put_money_line(out, b"bound", bound);
    }
}

// How many entries the log has.
fn put_evaluations<O: Out>(out: &mut O, found: &Found)
    ensures { O.emits (evaluations_line found.now) out.old out.new }
{
    let count = found.log.as_slice().len();
    put_whole_line(out, b"evaluations", count as u64);
}

// What a report says of a schedule before its rows.
pub(crate) fn put_summary<O: Out>(out: &mut O, found: &Found, gap: u32, cost: i64)
    requires { gap ≤ WHOLE_GAP }
    ensures { O.emits (schedule_summary found.now gap cost) out.old out.new }
{
    let bound = found.tree.bound();
    put_state(out, is_within_gap(&cost, &bound, gap));
    put_money_line(out, b"cost", &i128::from(cost));
    put_bound(out, &bound);
    put_evaluations(out, found);
}

fn put_found_schedule<O: Out>(
    out: &mut O,
    found: &Found,
    instance: &Instance,
    gap: u32,
    printed: &Printed,
    cost: i64,
)
    requires { gap ≤ WHOLE_GAP }
    ensures { O.emits (schedule_report instance.now found.now gap printed.now cost) out.old out.new }
{
    put_summary(out, found, gap, cost);
    put_schedule(out, instance, printed);
}

// What a report says without a schedule, but for why none was found.
pub(crate) fn put_no_summary<O: Out>(out: &mut O, found: &Found, bound: &Option<i128>)
    ensures { O.emits (no_schedule_summary found.now bound.now) out.old out.new }
{
    if bound.is_some() {
        out.put(b"budget spent, no schedule found\n");
        put_bound(out, bound);
        put_evaluations(out, found);
    } else {
        out.put(b"infeasible\n");
        put_evaluations(out, found);
    }
}

fn put_no_schedule<O: Out>(out: &mut O, found: &Found, instance: &Instance)
    ensures { O.emits (no_schedule_report instance.now found.now (tree_bound found.now.tree)) out.old out.new }
{
    let bound = found.tree.bound();
    put_no_summary(out, found, &bound);
    if bound.is_some() {
        put_stuck(out, instance, &found.most_on);
    }
}

fn put_report<O: Out>(out: &mut O, found: &Found, instance: &Instance, rounded: u64, gap: u32)
    requires { gap ≤ WHOLE_GAP }
    ensures { O.emits (found_report instance.now found.now rounded gap) out.old out.new }
{
    put_size(out, instance, rounded);
    match &found.schedule {
        Some((printed, cost)) => {
            put_found_schedule(out, found, instance, gap, printed, *cost);
        },
        None => put_no_schedule(out, found, instance),
    }
}

/// Writes the report of what was found for the instance, of which `rounded` numbers were rounded: whether
/// the search is closed by a gap of `gap` parts per million, cost, bound, evaluations and schedule; or,
/// without a schedule, the bound and why there is none, or that none exists. It takes no memory.
///
/// `Failed` comes only where the sink's count of faults rose, and a front of the report is written then.
/// Nothing is flushed.
pub fn write_found<O: Sink>(
    out: &mut O,
    found: &Found,
    instance: &Instance,
    rounded: u64,
    gap: u32,
) -> Result<(), Failed>
    requires { gap ≤ WHOLE_GAP }
    ensures ok { OnOk result (SinkWrites (found_report instance.now found.now rounded gap) (O.state out.old) (O.state out.new)) }
    ensures failed { OnErr result (SinkWritesFront (found_report instance.now found.now rounded gap) (O.state out.old) (O.state out.new)) }
{
    let mut latch = Latch::new(SinkWriter::new(out));
    put_report(&mut latch, found, instance, rounded, gap);
    latch.outcome()
}
