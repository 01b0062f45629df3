//! The lines of prices and of a schedule.

ghost use Rattle.std.specs.Prelude.{◌≡◌, Some};
ghost use Rattle.uc_model.specs.Decimal.{signed_text};
ghost use Rattle.branch_tree.specs.Prelude.{written_of};
ghost use Rattle.cert_text.specs.CertificateText.{cell_text, cost_line, has_price, is_divided, penalty_line};
ghost use Rattle.cert_text.specs.inside.WrittenParts.{penalty_part, shortages_part, schedule_part};

use outside::{
    Form, Out, RowLine, put_count, put_each, put_list_line, put_money, put_signed, put_whole,
};
use uc_model::{Cell, Printed};

/// A number of any sign.
#[derive(Clone, Copy)]
pub(crate) struct Signed;

impl Form<i64> for Signed {
    ghost text = { λ _ number. signed_text number };

    fn put_value<O: Out>(&self, number: &i64, out: &mut O) {
        put_signed(out, number);
    }
}

// A cell: `-`, or output above the minimum, reserve and start category.
#[derive(Clone, Copy)]
struct CellWord;

impl Form<Cell> for CellWord {
    ghost text = { λ _ cell. cell_text cell };

    fn put_value<O: Out>(&self, cell: &Cell, out: &mut O) {
        if cell.on {
            put_signed(out, &cell.p);
            out.put(b":");
            put_signed(out, &cell.r);
            out.put(b":");
            put_whole(out, u64::from(cell.category));
        } else {
            out.put(b"-");
        }
    }
}

/// Whether unserved demand, or missing reserve, has a price.
pub(crate) fn has_price(a: u32, b: u32) -> bool
    ensures { result ≡ has_price a b }
{
    a > 0 || b > 0
}

fn put_penalty_line<O: Out>(out: &mut O, a: u32, b: u32)
    ensures { O.emits (penalty_line a b) out.old out.new }
{
    put_count(out, b"penalty ", u64::from(a));
    put_count(out, b" ", u64::from(b));
    out.put(b"\n");
}

/// The prices of unserved demand and of missing reserve, where one of them isn't 0.
pub(crate) fn put_penalty<O: Out>(out: &mut O, a: u32, b: u32)
    ensures { O.emits (penalty_part a b) out.old out.new }
{
    if has_price(a, b) {
        put_penalty_line(out, a, b);
    }
}

// What is missing in each period, where that has a price.
fn put_shortages<O: Out>(out: &mut O, priced: bool, printed: &Printed)
    ensures { O.emits (shortages_part priced printed.now) out.old out.new }
{
    if priced {
        put_list_line(out, b"d", &Signed, printed.shed.as_slice());
        put_list_line(out, b"e", &Signed, printed.short.as_slice());
    }
}

// The line of a schedule's cost, in micro-dollars.
fn put_cost<O: Out>(out: &mut O, cost: i128, denominator: u8)
    ensures { O.emits (cost_line cost denominator) out.old out.new }
{
    out.put(b"schedule ");
    put_money(out, &cost);
    if denominator != 1 {
        put_count(out, b" over ", u64::from(denominator));
    }
    out.put(b"\n");
}

/// Whether a schedule that was found has powers that aren't whole.
pub(crate) fn is_divided(schedule: &Option<(Printed, i64)>) -> bool
    ensures { result ≡ is_divided (written_of schedule.now) }
{
    match schedule {
        Some((printed, _)) => printed.denominator != 1,
        None => false,
    }
}

/// The same of one that was read.
pub(crate) fn is_read_divided(schedule: &Option<(Printed, i128)>) -> bool
    ensures { result ≡ is_divided (written_of schedule.now) }
{
    match schedule {
        Some((printed, _)) => printed.denominator != 1,
        None => false,
    }
}

// A schedule with its cost, in micro-dollars.
fn put_written<O: Out>(out: &mut O, priced: bool, printed: &Printed, cost: i128)
    ensures { O.emits (schedule_part priced (Some (record { printed = printed.now; cost = cost }))) out.old out.new }
{
    put_cost(out, cost, printed.denominator);
    put_each(
        out,
        &RowLine {
            first: b"t",
            form: CellWord,
        },
        printed.thermal.as_slice(),
    );
    put_each(
        out,
        &RowLine {
            first: b"w",
            form: Signed,
        },
        printed.renewable.as_slice(),
    );
    put_shortages(out, priced, printed);
}

/// A schedule that was found, with its cost, or that there is none.
pub(crate) fn put_schedule<O: Out>(out: &mut O, priced: bool, schedule: &Option<(Printed, i64)>)
    ensures { O.emits (schedule_part priced (written_of schedule.now)) out.old out.new }
{
    match schedule {
        Some((printed, cost)) => put_written(out, priced, printed, i128::from(*cost)),
        None => out.put(b"schedule none\n"),
    }
}

/// The same of one that was read.
pub(crate) fn put_read_schedule<O: Out>(
    out: &mut O,
    priced: bool,
    schedule: &Option<(Printed, i128)>,
)
    ensures { O.emits (schedule_part priced (written_of schedule.now)) out.old out.new }
{
    match schedule {
        Some((printed, cost)) => put_written(out, priced, printed, *cost),
        None => out.put(b"schedule none\n"),
    }
}
