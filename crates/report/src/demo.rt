//! The report of a demo.

ghost use Rattle.std.specs.Prelude.{OnOk, OnErr};
ghost use Rattle.outside.specs.Prelude.{SinkWrites, SinkWritesFront};
ghost use Rattle.report.specs.DemoReport.{demo_report, outcome_summary};

use crate::found::{put_no_summary, put_summary};
use branch_tree::Found;
use outside::{Failed, Latch, Out, Sink, SinkWriter, put_whole_line};

/// The gap at which a demo is closed, in parts per million of a cost.
pub const DEMO_GAP: u32 = 1000;

fn put_outcome<O: Out>(out: &mut O, found: &Found)
    ensures { O.emits (outcome_summary found.now found.now.schedule) out.old out.new }
{
    match &found.schedule {
        Some((_, cost)) => put_summary(out, found, DEMO_GAP, *cost),
        None => put_no_summary(out, found, &found.tree.bound()),
    }
}

fn put_demo<O: Out>(out: &mut O, seed: u32, found: &Found)
    ensures { O.emits (demo_report seed found.now) out.old out.new }
{
    put_whole_line(out, b"demo", u64::from(seed));
    put_outcome(out, found);
}

/// Writes what was found for the instance of a seed: the seed, whether the search is closed by the gap of a demo, cost, bound and
/// evaluations; or, without a schedule, the bound, or that no schedule exists. It takes no memory.
///
/// `Failed` comes only where the sink's count of faults rose, and a front of the report is written then.
/// Nothing is flushed.
pub fn write_demo<O: Sink>(out: &mut O, seed: u32, found: &Found) -> Result<(), Failed>
    ensures ok { OnOk result (SinkWrites (demo_report seed found.now) (O.state out.old) (O.state out.new)) }
    ensures failed { OnErr result (SinkWritesFront (demo_report seed found.now) (O.state out.old) (O.state out.new)) }
{
    let mut latch = Latch::new(SinkWriter::new(out));
    put_demo(&mut latch, seed, found);
    latch.outcome()
}
