//! The line on a commitment that could not be dispatched.

ghost use Rattle.std.specs.Prelude.{◌≡◌, ◌∷◌, []};
ghost use Rattle.uc_model.specs.Prelude.{thermal_unit};
ghost use Rattle.uc_model.specs.Money.{money_text};
ghost use Rattle.outside.specs.Lines.{line};
ghost use Rattle.report.specs.FoundReport.{thermal_words, why_line, stuck_line};

use crate::names::put_unit;
use outside::{Out, put_amount, put_place, put_whole};
use uc_model::{Instance, Stuck, Why};

// The name of a thermal unit, and of none past the last one.
fn thermal_name(instance: &Instance, unit: usize) -> &str
    ensures { result.now ≡ (thermal_unit instance.now unit).name }
{
    match instance.thermal.as_slice().get(unit) {
        Some(unit) => unit.name.as_str(),
        None => "",
    }
}

fn put_thermal<O: Out>(out: &mut O, instance: &Instance, unit: usize)
    ensures { O.emits (thermal_words instance.now unit) out.old out.new }
{
    put_unit(out, b"thermal", thermal_name(instance, unit));
}

// A power that doesn't fit another one.
fn put_misfit<O: Out>(out: &mut O, what: &[u8], power: i64, relation: &[u8], other: i64)
    ensures { O.emits (line what.now (money_text power ∷ relation.now ∷ money_text other ∷ [])) out.old out.new }
{
    out.put(what);
    out.put(b" ");
    put_amount(out, &power);
    out.put(b" ");
    out.put(relation);
    out.put(b" ");
    put_amount(out, &other);
    out.put(b"\n");
}

fn put_why<O: Out>(out: &mut O, instance: &Instance, why: &Why)
    ensures { O.emits (why_line instance.now why.now) out.old out.new }
{
    match why {
        Why::Rule { rule, unit } => {
            put_thermal(out, instance, *unit);
            out.put(b" breaks M");
            put_whole(out, u64::from(*rule));
            out.put(b"\n");
        }
        Why::Box { unit, low, high } => {
            put_thermal(out, instance, *unit);
            out.put(b" needs at least ");
            put_amount(out, low);
            out.put(b" and at most ");
            put_amount(out, high);
            out.put(b" above its minimum\n");
        }
        Why::Over { least, demand } => {
            put_misfit(out, b"least output", *least, b"above demand", *demand);
        }
        Why::Under { most, demand } => {
            put_misfit(out, b"most output", *most, b"below demand", *demand);
        }
        Why::Reserve { room, need } => put_misfit(out, b"reserve", *room, b"below need", *need),
    }
}

// Where and why the most-on commitment got stuck, if it is known. The period counts from 1 in the text.
pub(crate) fn put_stuck<O: Out>(out: &mut O, instance: &Instance, stuck: &Option<Stuck>)
    ensures { O.emits (stuck_line instance.now stuck.now) out.old out.new }
{
    if let Some(stuck) = stuck {
        out.put(b"most-on commitment stuck in period ");
        put_place(out, stuck.period);
        out.put(b": ");
        put_why(out, instance, &stuck.why);
    }
}
