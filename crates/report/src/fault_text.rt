//! The line of a fault.

ghost use Rattle.std.specs.Prelude.{◌≡◌, ◌∷◌, [], OnOk, OnErr, codes};
ghost use Rattle.outside.specs.Prelude.{SinkWrites, SinkWritesFront};
ghost use Rattle.outside.specs.Lines.{joined};
ghost use Rattle.uc_model.specs.Decimal.{whole_text};
ghost use Rattle.report.specs.FaultText.{usage_text, slot_text, read_line, write_line, long_line, json_text, field_text, owner_text, entry_text, instance_line, line_fault_text, unit_rule_line, period_rule_line, rule_line, costs_line, refusal_line, no_uplift_line, fault_text};

use crate::fault::{Fault, UpliftRefusal};
use crate::names::put_unit;
use outside::{
    Failed, Latch, Out, Sink, SinkWriter, Slot, put_amount, put_money, put_place, put_whole,
    put_whole_line,
};
use uc_model::{Field, FieldRefusal, Refusal};

// How the program is called.
fn put_usage<O: Out>(out: &mut O)
    ensures { O.emits usage_text out.old out.new }
{
    out.put(b"usage: uc solve FILE --cert FILE [--units N] [--workers N] [--gap PPM] [--exact]\n");
    out.put(b"       uc check FILE CERT\n");
    out.put(b"       uc demo SEED\n");
}

fn slot_word(slot: &Slot) -> &'static [u8]
    ensures { result.now ≡ slot_text slot.now }
{
    match slot {
        Slot::Instance => b"instance",
        Slot::CertIn | Slot::CertOut => b"certificate",
    }
}

fn put_read<O: Out>(out: &mut O, slot: &Slot)
    ensures { O.emits (read_line slot.now) out.old out.new }
{
    out.put(b"read failed: ");
    out.put(slot_word(slot));
    out.put(b"\n");
}

fn write_failed(output: bool) -> &'static [u8]
    ensures { result.now ≡ write_line output }
{
    if output {
        b"write failed: output\n"
    } else {
        b"write failed: certificate\n"
    }
}

fn too_long(slot: &Slot) -> &'static [u8]
    ensures { result.now ≡ long_line slot.now }
{
    match slot {
        Slot::Instance => b"instance: more than 67108864 bytes\n",
        Slot::CertIn | Slot::CertOut => b"certificate: more than 70368744177664 bytes\n",
    }
}

// What is wrong at a byte of the instance.
fn json_fault(kind: u8) -> &'static [u8]
    ensures { result.now ≡ json_text kind }
{
    match kind {
        1 => b"not UTF-8",
        2 => b"no JSON",
        3 => b"nested too deep",
        4 => b"key twice",
        5 => b"unpaired surrogate",
        _ => b"",
    }
}

// A field's name after a space, and nothing for the whole value.
fn field_name(field: &Field) -> &'static [u8]
    ensures { result.now ≡ field_text field.now }
{
    match field {
        Field::NoField => b"",
        Field::TimePeriods => b" time_periods",
        Field::Demand => b" demand",
        Field::Reserves => b" reserves",
        Field::ThermalGenerators => b" thermal_generators",
        Field::RenewableGenerators => b" renewable_generators",
        Field::MustRun => b" must_run",
        Field::PowerOutputMinimum => b" power_output_minimum",
        Field::PowerOutputMaximum => b" power_output_maximum",
        Field::RampUpLimit => b" ramp_up_limit",
        Field::RampDownLimit => b" ramp_down_limit",
        Field::RampStartupLimit => b" ramp_startup_limit",
        Field::RampShutdownLimit => b" ramp_shutdown_limit",
        Field::TimeUpMinimum => b" time_up_minimum",
        Field::TimeDownMinimum => b" time_down_minimum",
        Field::PowerOutputT0 => b" power_output_t0",
        Field::UnitOnT0 => b" unit_on_t0",
        Field::TimeUpT0 => b" time_up_t0",
        Field::TimeDownT0 => b" time_down_t0",
        Field::Startup => b" startup",
        Field::StartupLag => b" startup.lag",
        Field::StartupCost => b" startup.cost",
        Field::PiecewiseProduction => b" piecewise_production",
        Field::PiecewiseProductionMw => b" piecewise_production.mw",
        Field::PiecewiseProductionCost => b" piecewise_production.cost",
    }
}

// The unit whose field is refused, after a space.
fn put_owner<O: Out>(out: &mut O, kind: u8, name: &str)
    ensures { O.emits (owner_text kind name.now) out.old out.new }
{
    if kind == 1 {
        put_unit(out, b" thermal", name);
    } else if kind == 2 {
        put_unit(out, b" renewable", name);
    }
}

// The entry of an array after a space; 0 is none.
fn put_entry<O: Out>(out: &mut O, entry: u32)
    ensures { O.emits (entry_text entry) out.old out.new }
{
    if entry > 0 {
        out.put(b" ");
        put_whole(out, u64::from(entry));
    }
}

// The refusal of a field of the instance.
fn put_instance<O: Out>(out: &mut O, refusal: &FieldRefusal)
    ensures { O.emits (instance_line refusal.now) out.old out.new }
{
    out.put(b"instance: I");
    put_whole(out, u64::from(refusal.code));
    put_owner(out, refusal.kind_of_unit, refusal.unit.as_str());
    out.put(field_name(&refusal.field));
    put_entry(out, refusal.entry);
    out.put(b"\n");
}

// What is wrong at a line of the certificate.
fn line_fault(kind: u8) -> &'static [u8]
    ensures { result.now ≡ line_fault_text kind }
{
    match kind {
        1 => b"form",
        2 => b"cut short",
        3 => b"bytes after the end",
        _ => b"",
    }
}

// What is wrong at a number of a file: a byte of the instance, or a line of the certificate.
fn put_at<O: Out>(out: &mut O, words: &[u8], number: u64, what: &[u8])
    ensures { O.emits (joined (words.now ∷ whole_text number ∷ codes ": " ∷ what.now ∷ codes "\n" ∷ [])) out.old out.new }
{
    out.put(words);
    put_whole(out, number);
    out.put(b": ");
    out.put(what);
    out.put(b"\n");
}

// A rule that the schedule breaks for a unit of a kind.
fn put_unit_rule<O: Out>(out: &mut O, rule: u8, kind: &[u8], unit: usize, period: usize)
    ensures { O.emits (unit_rule_line rule kind.now unit period) out.old out.new }
{
    out.put(b"certificate: C2 M");
    put_whole(out, u64::from(rule));
    out.put(kind);
    put_place(out, unit);
    out.put(b" period ");
    put_place(out, period);
    out.put(b"\n");
}

// A rule that the schedule breaks in a whole period.
fn put_period_rule<O: Out>(out: &mut O, rule: u8, period: usize)
    ensures { O.emits (period_rule_line rule period) out.old out.new }
{
    out.put(b"certificate: C2 M");
    put_whole(out, u64::from(rule));
    out.put(b" period ");
    put_place(out, period);
    out.put(b"\n");
}

fn put_rule<O: Out>(out: &mut O, rule: u8, unit: usize, period: usize)
    ensures { O.emits (rule_line rule unit period) out.old out.new }
{
    if rule == 13 {
        put_unit_rule(out, rule, b" renewable ", unit, period);
    } else if rule >= 14 {
        put_period_rule(out, rule, period);
    } else {
        put_unit_rule(out, rule, b" thermal ", unit, period);
    }
}

fn put_costs<O: Out>(out: &mut O, written: i128, computed: i64)
    ensures { O.emits (costs_line written computed) out.old out.new }
{
    out.put(b"certificate: C3 written ");
    put_money(out, &written);
    out.put(b" computed ");
    put_amount(out, &computed);
    out.put(b"\n");
}

// Why a certificate is refused.
fn put_refusal<O: Out>(out: &mut O, refusal: &Refusal)
    ensures { O.emits (refusal_line refusal.now) out.old out.new }
{
    match refusal {
        Refusal::C1 { table } => put_whole_line(out, b"certificate: C1 table", u64::from(*table)),
        Refusal::C2 { rule, unit, period } => put_rule(out, *rule, *unit, *period),
        Refusal::C3 { written, computed } => put_costs(out, *written, *computed),
        Refusal::C4 { node } => put_whole_line(out, b"certificate: C4 node", *node),
        Refusal::C5 { node } => put_whole_line(out, b"certificate: C5 node", *node),
        Refusal::C6 { node } => put_whole_line(out, b"certificate: C6 node", *node),
        Refusal::C7 { node } => put_whole_line(out, b"certificate: C7 node", *node),
        Refusal::C8 => out.put(b"certificate: C8\n"),
        Refusal::C9 => out.put(b"certificate: C9\n"),
        Refusal::C10 => out.put(b"certificate: C10\n"),
    }
}

// Why a certificate that holds has no uplifts.
fn no_uplift(refusal: &UpliftRefusal) -> &'static [u8]
    ensures { result.now ≡ no_uplift_line refusal.now }
{
    match refusal {
        UpliftRefusal::NoSchedule => b"certificate: C11\n",
        UpliftRefusal::Fractions => b"certificate: C12\n",
        UpliftRefusal::NoTable => b"certificate: C13\n",
        UpliftRefusal::Ray => b"certificate: C14\n",
    }
}

fn put_fault<O: Out>(out: &mut O, fault: &Fault)
    ensures { O.emits (fault_text fault.now) out.old out.new }
{
    match fault {
        Fault::Words => put_usage(out),
        Fault::Read(slot) => put_read(out, slot),
        Fault::Write { output } => out.put(write_failed(*output)),
        Fault::Memory => out.put(b"out of memory\n"),
        Fault::Long(slot) => out.put(too_long(slot)),
        Fault::Json { at, kind } => put_at(out, b"instance: byte ", *at as u64, json_fault(*kind)),
        Fault::Instance(refusal) => put_instance(out, refusal),
        Fault::Line { line, kind } => {
            put_at(out, b"certificate: line ", *line, line_fault(*kind));
        }
        Fault::Code(refusal) => put_refusal(out, refusal),
        Fault::NoUplift(refusal) => out.put(no_uplift(refusal)),
    }
}

/// Writes the line of a fault, or for faulty words the three lines of how the program is called. It takes
/// no memory.
///
/// `Failed` comes only where the sink's count of faults rose, and a front of the text is written then.
/// Nothing is flushed.
pub fn write_fault<E: Sink>(err: &mut E, fault: &Fault) -> Result<(), Failed>
    ensures ok { OnOk result (SinkWrites (fault_text fault.now) (E.state err.old) (E.state err.new)) }
    ensures failed { OnErr result (SinkWritesFront (fault_text fault.now) (E.state err.old) (E.state err.new)) }
{
    let mut latch = Latch::new(SinkWriter::new(err));
    put_fault(&mut latch, fault);
    latch.outcome()
}
