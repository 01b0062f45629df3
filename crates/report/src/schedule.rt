//! The lines of a schedule.

ghost use Rattle.std.specs.Prelude.{◌≡◌, pos, ◌+ℤ◌, ◌*ℤ◌};
ghost use Rattle.report.specs.FoundReport.{denominator_line, start_text, cell_text, paired_thermal_line, paired_renewable_line, priced_line, shortage_lines, schedule_lines};
ghost use Rattle.uc_model.specs.Money.{money_text};

use crate::names::put_unit;
use outside::{
    Form, Out, PairForm, put_amount, put_list_line, put_money, put_pairs, put_whole, put_whole_line,
};
use uc_model::{Cell, Instance, List, Printed, Renewable, Thermal, scaled, sum};

// The category of a start; 0 is no start.
fn put_start<O: Out>(out: &mut O, category: u8)
    ensures { O.emits (start_text category) out.old out.new }
{
    if category > 0 {
        out.put(b"*");
        put_whole(out, u64::from(category));
    }
}

// Output with the minimum, over the denominator.
fn total_output(unit: &Thermal, cell: &Cell, denominator: u8) -> i128
    ensures { result ≡ cell.now.p +ℤ pos denominator *ℤ unit.now.pmin }
{
    sum(
        i128::from(cell.p),
        scaled(i64::from(denominator), unit.pmin),
    )
}

// A cell of a unit: `-`, or total output, reserve and the category of a start, over the denominator.
#[derive(Clone, Copy)]
struct CellOf<'a> {
    unit: &'a Thermal,
    denominator: u8,
}

impl<'a> Form<Cell> for CellOf<'a> {
    ghost text = { λ form cell. cell_text form.denominator form.unit.now cell };

    fn put_value<O: Out>(&self, cell: &Cell, out: &mut O) {
        if cell.on {
            put_money(out, &total_output(self.unit, cell, self.denominator));
            out.put(b"+");
            put_amount(out, &cell.r);
            put_start(out, cell.category);
        } else {
            out.put(b"-");
        }
    }
}

// A power in megawatts.
#[derive(Clone, Copy)]
struct Power;

impl Form<i64> for Power {
    ghost text = { λ _ power. money_text power };

    fn put_value<O: Out>(&self, power: &i64, out: &mut O) {
        put_amount(out, power);
    }
}

// The line of a thermal unit and its row, over the denominator.
#[derive(Clone, Copy)]
struct ThermalLine {
    denominator: u8,
}

impl PairForm<Thermal, List<Cell>> for ThermalLine {
    ghost text = { λ form pair. paired_thermal_line form.denominator pair };

    fn put_pair<O: Out>(&self, unit: &Thermal, row: &List<Cell>, out: &mut O) {
        put_unit(out, b"thermal", unit.name.as_str());
        let form = CellOf {
            unit,
            denominator: self.denominator,
        };
        put_list_line(out, b"", &form, row.as_slice());
    }
}

// The line of a renewable unit and its row.
#[derive(Clone, Copy)]
struct RenewableLine;

impl PairForm<Renewable, List<i64>> for RenewableLine {
    ghost text = { λ _ pair. paired_renewable_line pair };

    fn put_pair<O: Out>(&self, unit: &Renewable, row: &List<i64>, out: &mut O) {
        put_unit(out, b"renewable", unit.name.as_str());
        put_list_line(out, b"", &Power, row.as_slice());
    }
}

// Powers that are missing, where that has a price.
fn put_priced<O: Out>(out: &mut O, first: &[u8], price: u32, powers: &[i64])
    ensures { O.emits (priced_line first.now price powers.now) out.old out.new }
{
    if price > 0 {
        put_list_line(out, first, &Power, powers);
    }
}

// The demand that is unserved, and the reserve that is short.
fn put_shortages<O: Out>(out: &mut O, instance: &Instance, printed: &Printed)
    ensures { O.emits (shortage_lines instance.now printed.now) out.old out.new }
{
    put_priced(out, b"shed", instance.a, printed.shed.as_slice());
    put_priced(out, b"reserve-short", instance.b, printed.short.as_slice());
}

// The denominator of a schedule's powers, where they aren't whole watts.
fn put_denominator<O: Out>(out: &mut O, denominator: u8)
    ensures { O.emits (denominator_line denominator) out.old out.new }
{
    if denominator > 1 {
        put_whole_line(out, b"denominator", u64::from(denominator));
    }
}

/// The denominator and the rows of a schedule, and what it lacks.
pub(crate) fn put_schedule<O: Out>(out: &mut O, instance: &Instance, printed: &Printed)
    ensures { O.emits (schedule_lines instance.now printed.now) out.old out.new }
{
    put_denominator(out, printed.denominator);
    put_pairs(
        out,
        &ThermalLine {
            denominator: printed.denominator,
        },
        instance.thermal.as_slice(),
        printed.thermal.as_slice(),
    );
    put_pairs(
        out,
        &RenewableLine,
        instance.renewable.as_slice(),
        printed.renewable.as_slice(),
    );
    put_shortages(out, instance, printed);
}
