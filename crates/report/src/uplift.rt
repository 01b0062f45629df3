//! The report of uplifts.

ghost use Rattle.std.specs.Prelude.{◌≡◌, ◌∷◌, [], OnOk, OnErr};
ghost use Rattle.uc_model.specs.Decimal.{signed_text};
ghost use Rattle.outside.specs.Lines.{line};
ghost use Rattle.outside.specs.Prelude.{SinkWrites, SinkWritesFront};
ghost use Rattle.report.specs.UpliftReport.{price_lines, thermal_uplift_line, renewable_uplift_line, has_shortage_price as is_shortage_priced, shed_uplift_line, uplift_report};

use crate::names::put_unit;
use dual_model::Table;
use itoa::Buffer;
use outside::{
    Failed, Form, Latch, Out, PairForm, Sink, SinkWriter, put_list_line, put_pairs, put_signed,
};
use uc_model::{Instance, List, Renewable, Thermal};

/// The uplifts that a report tells, whole numbers of 1/K micro-dollars where K is the scale of the table: one for each thermal unit and
/// one for each renewable unit, in the order of the instance; that of all shortages; the slacks of reserve and of ramps; and the total.
#[derive(Debug, Drop)]
pub struct UpliftNumbers {
    pub thermal: List<i128>,
    pub renewable: List<i128>,
    pub shed: i128,
    pub reserve_slack: i128,
    pub ramp_slack: i128,
    pub total: i128,
}

// The digits of a number of any sign, of 128 bits.
fn wide_digits(buffer: &mut Buffer, number: i128) -> &[u8]
    ensures { result.now ≡ signed_text number }
{
    buffer.format(number).as_bytes()
}

// A line of one number, after its first word.
fn put_number<O: Out>(out: &mut O, first: &[u8], number: i128)
    ensures { O.emits (line first.now (signed_text number ∷ [])) out.old out.new }
{
    out.put(first);
    out.put(b" ");
    out.put(wide_digits(&mut Buffer::new(), number));
    out.put(b"\n");
}

// A price of a table.
#[derive(Clone, Copy)]
struct Price;

impl Form<i64> for Price {
    ghost text = { λ _ price. signed_text price };

    fn put_value<O: Out>(&self, price: &i64, out: &mut O) {
        put_signed(out, price);
    }
}

// The scale, and the prices of each period.
fn put_prices<O: Out>(out: &mut O, table: &Table)
    ensures { O.emits (price_lines table.now) out.old out.new }
{
    put_number(out, b"scale", i128::from(table.k()));
    put_list_line(out, b"price", &Price, table.pi());
    put_list_line(out, b"reserve-price", &Price, table.mu());
}

// The line of a thermal unit and its uplift.
#[derive(Clone, Copy)]
struct ThermalUplift;

impl PairForm<Thermal, i128> for ThermalUplift {
    ghost text = { λ _ pair. thermal_uplift_line pair };

    fn put_pair<O: Out>(&self, unit: &Thermal, uplift: &i128, out: &mut O) {
        put_unit(out, b"thermal", unit.name.as_str());
        put_number(out, b"", *uplift);
    }
}

// The line of a renewable unit and its uplift.
#[derive(Clone, Copy)]
struct RenewableUplift;

impl PairForm<Renewable, i128> for RenewableUplift {
    ghost text = { λ _ pair. renewable_uplift_line pair };

    fn put_pair<O: Out>(&self, unit: &Renewable, uplift: &i128, out: &mut O) {
        put_unit(out, b"renewable", unit.name.as_str());
        put_number(out, b"", *uplift);
    }
}

// Whether unserved demand, or missing reserve, has a price.
fn has_shortage_price(instance: &Instance) -> bool
    ensures { result ≡ is_shortage_priced instance.now }
{
    instance.a > 0 || instance.b > 0
}

fn put_shed<O: Out>(out: &mut O, instance: &Instance, shed: i128)
    ensures { O.emits (shed_uplift_line instance.now shed) out.old out.new }
{
    if has_shortage_price(instance) {
        put_number(out, b"shed", shed);
    }
}

fn put_uplift<O: Out>(out: &mut O, instance: &Instance, table: &Table, numbers: &UpliftNumbers)
    ensures { O.emits (uplift_report instance.now table.now numbers.now) out.old out.new }
{
    put_prices(out, table);
    put_pairs(
        out,
        &ThermalUplift,
        instance.thermal.as_slice(),
        numbers.thermal.as_slice(),
    );
    put_pairs(
        out,
        &RenewableUplift,
        instance.renewable.as_slice(),
        numbers.renewable.as_slice(),
    );
    put_shed(out, instance, numbers.shed);
    put_number(out, b"reserve-slack", numbers.reserve_slack);
    put_number(out, b"ramp-slack", numbers.ramp_slack);
    put_number(out, b"total", numbers.total);
}

/// Writes the uplifts of a schedule of the instance at the prices of the table. It takes no memory.
///
/// `Failed` comes only where the sink's count of faults rose, and a front of the report is written then.
/// Nothing is flushed.
pub fn write_uplift<O: Sink>(
    out: &mut O,
    instance: &Instance,
    table: &Table,
    numbers: &UpliftNumbers,
) -> Result<(), Failed>
    ensures ok { OnOk result (SinkWrites (uplift_report instance.now table.now numbers.now) (O.state out.old) (O.state out.new)) }
    ensures failed { OnErr result (SinkWritesFront (uplift_report instance.now table.now numbers.now) (O.state out.old) (O.state out.new)) }
{
    let mut latch = Latch::new(SinkWriter::new(out));
    put_uplift(&mut latch, instance, table, numbers);
    latch.outcome()
}
