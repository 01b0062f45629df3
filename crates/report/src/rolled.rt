//! The report of a roll.

ghost use Rattle.std.specs.Prelude.{OnOk, OnErr};
ghost use Rattle.outside.specs.Prelude.{SinkWrites, SinkWritesFront};
ghost use Rattle.report.specs.RolledReport.{none_text, outcome_lines, rolled_report, stopped_line, whole_lines, windows_line};

use crate::found::put_size;
use crate::schedule::put_schedule;
use branch_tree::Found;
use outside::{Failed, Latch, Out, Sink, SinkWriter, put_count, put_money_line};
use roll::Rolled;
use uc_model::{Instance, Printed};

// How many windows the schedule is stitched of.
fn put_windows<O: Out>(out: &mut O, windows: u32)
    ensures { O.emits (windows_line windows) out.old out.new }
{
    put_count(out, b"rolled ", u64::from(windows));
    out.put(b" windows\n");
}

// A schedule of all periods.
fn put_whole<O: Out>(out: &mut O, instance: &Instance, schedule: &Printed, cost: i64, windows: u32)
    ensures { O.emits (whole_lines instance.now schedule.now cost windows) out.old out.new }
{
    put_windows(out, windows);
    put_money_line(out, b"cost", &i128::from(cost));
    put_schedule(out, instance, schedule);
}

// Why a window has no schedule.
fn put_none<O: Out>(out: &mut O, bound: &Option<i128>)
    ensures { O.emits (none_text bound.now) out.old out.new }
{
    match bound {
        None => out.put(b"infeasible"),
        Some(_) => out.put(b"no schedule found"),
    }
}

// A window without a schedule.
fn put_stopped<O: Out>(out: &mut O, window: u32, from: u32, to: u32, found: &Found)
    ensures { O.emits (stopped_line window from to found.now) out.old out.new }
{
    put_count(out, b"window ", u64::from(window));
    put_count(out, b" periods ", u64::from(from));
    put_count(out, b" to ", u64::from(to));
    out.put(b": ");
    put_none(out, &found.tree.bound());
    out.put(b"\n");
}

fn put_outcome<O: Out>(out: &mut O, instance: &Instance, rolled: &Rolled)
    ensures { O.emits (outcome_lines instance.now rolled.now) out.old out.new }
{
    match rolled {
        Rolled::Whole {
            schedule,
            cost,
            windows,
        } => put_whole(out, instance, schedule, *cost, *windows),
        Rolled::Stopped {
            window,
            from,
            to,
            found,
            ..
        } => put_stopped(out, *window, *from, *to, found),
    }
}

fn put_rolled<O: Out>(out: &mut O, instance: &Instance, rolled: &Rolled, rounded: u64)
    ensures { O.emits (rolled_report instance.now rolled.now rounded) out.old out.new }
{
    put_size(out, instance, rounded);
    put_outcome(out, instance, rolled);
}

/// Writes what came of rolling the instance, of which `rounded` numbers were rounded: how many windows there are, the cost and the
/// schedule; or the window whose search found none, and whether there is none. It takes no memory.
///
/// `Failed` comes only where the sink's count of faults rose, and a front of the report is written then.
/// Nothing is flushed.
pub fn write_rolled<O: Sink>(
    out: &mut O,
    rolled: &Rolled,
    instance: &Instance,
    rounded: u64,
) -> Result<(), Failed>
    ensures ok { OnOk result (SinkWrites (rolled_report instance.now rolled.now rounded) (O.state out.old) (O.state out.new)) }
    ensures failed { OnErr result (SinkWritesFront (rolled_report instance.now rolled.now rounded) (O.state out.old) (O.state out.new)) }
{
    let mut latch = Latch::new(SinkWriter::new(out));
    put_rolled(&mut latch, instance, rolled, rounded);
    latch.outcome()
}
