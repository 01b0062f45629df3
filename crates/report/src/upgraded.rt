//! The report of a certificate that was written anew.

ghost use Rattle.std.specs.Prelude.{OnOk, OnErr};
ghost use Rattle.outside.specs.Prelude.{SinkWrites, SinkWritesFront};
ghost use Rattle.report.specs.UpgradeReport.{upgrade_report};

use outside::{Failed, Latch, Out, Sink, SinkWriter};

fn put_upgraded<O: Out>(out: &mut O)
    ensures { O.emits upgrade_report out.old out.new }
{
    out.put(b"upgraded\n");
}

/// Writes that a certificate was written anew, in the newest version of its format. It takes no memory.
///
/// `Failed` comes only where the sink's count of faults rose, and a front of the report is written then.
/// Nothing is flushed.
pub fn write_upgraded<O: Sink>(out: &mut O) -> Result<(), Failed>
    ensures ok { OnOk result (SinkWrites upgrade_report (O.state out.old) (O.state out.new)) }
    ensures failed { OnErr result (SinkWritesFront upgrade_report (O.state out.old) (O.state out.new)) }
{
    let mut latch = Latch::new(SinkWriter::new(out));
    put_upgraded(&mut latch);
    latch.outcome()
}
