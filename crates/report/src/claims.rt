//! The report of a certificate that was accepted.

ghost use Rattle.std.specs.Prelude.{OnOk, OnErr};
ghost use Rattle.outside.specs.Prelude.{SinkWrites, SinkWritesFront};
ghost use Rattle.report.specs.ClaimsReport.{schedule_cost_line, claim_lines, claims_report};

use crate::found::put_bound;
use outside::{Failed, Latch, Out, Sink, SinkWriter, put_money_line};

fn put_cost<O: Out>(out: &mut O, cost: &Option<i64>)
    ensures { O.emits (schedule_cost_line cost.now) out.old out.new }
{
    if let Some(cost) = cost {
        put_money_line(out, b"cost", &i128::from(*cost));
    }
}

fn put_claim<O: Out>(out: &mut O, cost: &Option<i64>, bound: &Option<i128>, infeasible: bool)
    ensures { O.emits (claim_lines cost.now bound.now infeasible) out.old out.new }
{
    if infeasible {
        out.put(b"infeasible\n");
    } else {
        put_cost(out, cost);
        put_bound(out, bound);
    }
}

fn put_claims<O: Out>(out: &mut O, cost: &Option<i64>, bound: &Option<i128>, infeasible: bool)
    ensures { O.emits (claims_report cost.now bound.now infeasible) out.old out.new }
{
    out.put(b"accepted\n");
    put_claim(out, cost, bound, infeasible);
}

/// Writes what an accepted certificate claims: that there is no schedule where `infeasible`; else the cost of its
/// schedule, if there is one, and the bound, both in micro-dollars. It takes no memory.
///
/// `Failed` comes only where the sink's count of faults rose, and a front of the report is written then.
/// Nothing is flushed.
pub fn write_claims<O: Sink>(
    out: &mut O,
    cost: Option<i64>,
    bound: Option<i128>,
    infeasible: bool,
) -> Result<(), Failed>
    ensures ok { OnOk result (SinkWrites (claims_report cost bound infeasible) (O.state out.old) (O.state out.new)) }
    ensures failed { OnErr result (SinkWritesFront (claims_report cost bound infeasible) (O.state out.old) (O.state out.new)) }
{
    let mut latch = Latch::new(SinkWriter::new(out));
    put_claims(&mut latch, &cost, &bound, infeasible);
    latch.outcome()
}
